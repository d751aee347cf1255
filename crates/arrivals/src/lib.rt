//! Section: Meaning. Promises that a kernel is pair-safe where what is owed of its places is shown; stands on `semantics`.
//!
//! Barriers and loops, for the whole core. A *place* is the kernel's entry or a barrier (its *anchor*), or a loop without a barrier that is
//! reached from there (its *head*). Its tree says what one item does from there to the next place or its end, each test going either way.
//! What is owed speaks of the leaves of these trees (where items arrive) and of their fronts (the statements that they come to), and of no
//! solo run: that items of one group come to one barrier, that accesses are apart, that no statement faults, that what is stored is a
//! number that its buffer may hold. The walk of a tree with forms and facts (`specs/Symbolic.antt`) is for whoever shows it: where the walk
//! of terms is faithful, an item that follows a path stands at its leaf and at its fronts (`proofs/Drawing.antt`).
//!
//! Where lines of the conditions say what buffers hold (`contents` of the notes), loads are answered by such numbers alone, on paths and in
//! solo runs. Without such lines these are all paths and all solo runs.
#![tactic(auto)]

pub mod laws;
