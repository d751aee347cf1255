//! What the definitions say of small kernels, by computation.

ghost use Rattle.std.specs.Prelude.{◌≡◌, ◌++◌, ◌∷◌, [], List, ℕ, pos, negsuc, true, false, not, ◌&&◌, nat_eq, bytes_eq, replicate, Result};
ghost use Rattle.std.specs.Ordering.{int_eq};
ghost use Rattle.semantics.specs.Word.{Kind, Int, Uint, Width, Word, word, Direction, Leftward, Rightward, Overflow, DivisionByZero, OutOfBounds, Add, Subtract, Divide, Remainder, Negate, Less, calculate, convert};
ghost use Rattle.semantics.specs.Core.{Term, Barrier, Load, Binary, Unary, And, Or, Select, Compare, Convert, Literal, Shift, Within, Opaque};
ghost use Rattle.semantics.specs.Setup.{Setup};
ghost use Rattle.semantics.specs.Evaluation.{evaluate, Gives, Needs, Faults};
ghost use Rattle.semantics.specs.Item.{Stopped, trail};
ghost use Rattle.semantics.specs.Solo.{after};
ghost use Rattle.semantics.specs.World.{Step, Release, waits};
ghost use Rattle.semantics.specs.Tests.{diverges};
ghost use Rattle.semantics.specs.Rounds.{result_by_rounds};
ghost use Rattle.semantics.specs.Safety.{IsPairSafe};
ghost use Rattle.samples.specs.Terms.{at, uint, buffer, after_run, is_possible, number_at, front_is};
ghost use Rattle.samples.specs.Devices.{asked_twice, noted, on_machine, telling};
ghost use Rattle.samples.specs.Kernels.{half_waits, other_turns, turned, steps, crossing, crossing_local, crossed, has_clash, two_groups, own_array, broken, continued, nested, for_ever, indexed, converted};

/// C99 6.5.5 and 6.3.1.3 at the edges; `-1 < 0u` is 0.
pub fn words_are_exact()
    ensures quotient { (w : Width) → calculate Divide w Int (negsuc 6) (pos 2) ≡ Ok (word Int (negsuc 2)) }
    ensures remainder { (w : Width) → calculate Remainder w Int (negsuc 6) (pos 2) ≡ Ok (word Int (negsuc 0)) }
    ensures least { (w : Width) → calculate Remainder w Int (negsuc 2147483647) (negsuc 0) ≡ Err Overflow }
    ensures zero { (w : Width) → calculate Remainder w Uint (pos 1) (pos 0) ≡ Err DivisionByZero }
    ensures wraps { (w : Width) → calculate Subtract w Uint (pos 0) (pos 1) ≡ Ok (word Uint (pos 4294967295)) }
    ensures converts { (w : Width) → convert w Int (pos 2147483648) ≡ Err Overflow }
    ensures mixed { evaluate half_waits 0 [] (Compare Less Uint (Unary Negate Int (at 1) (Literal Int (pos 1))) (uint 0)) [] [] ≡ Gives (word Int (pos 0)) [] }
{}

/// A shift by a term goes as far as the lowest five bits of its count say. To the left it keeps 32 bits, to the right it rounds down.
pub fn shifts_go_by_five_bits()
    ensures around { (s : Setup) (i : ℕ) (now : List ℕ) (d : Direction) (k : Kind) (e : Term) (variables answers : List Word) → evaluate s i now (Shift d k e (uint 32)) variables answers ≡ evaluate s i now (Shift d k e (uint 0)) variables answers }
    ensures below_zero { evaluate half_waits 0 [] (Shift Rightward Uint (uint 4294967295) (Literal Int (negsuc 0))) [] [] ≡ Gives (word Uint (pos 1)) [] }
    ensures down { evaluate half_waits 0 [] (Shift Rightward Int (Literal Int (negsuc 4)) (uint 1)) [] [] ≡ Gives (word Int (negsuc 2)) [] }
    ensures to_the_sign { evaluate half_waits 0 [] (Shift Leftward Int (Literal Int (pos 1)) (uint 31)) [] [] ≡ Gives (word Int (negsuc 2147483647)) [] }
    ensures out { evaluate half_waits 0 [] (Shift Leftward Uint (uint 4294967295) (uint 4)) [] [] ≡ Gives (word Uint (pos 4294967280)) [] }
{}

/// An index that has to lie in so many elements is itself there, and fails at its site elsewhere.
pub fn indices_lie_within()
    ensures inside { evaluate indexed 0 [] (Within (at 1) 4 (uint 3)) [] [] ≡ Gives (word Uint (pos 3)) [] }
    ensures past { evaluate indexed 0 [] (Within (at 1) 4 (uint 4)) [] [] ≡ Faults OutOfBounds (at 1) }
    ensures below { evaluate indexed 0 [] (Within (at 1) 4 (Literal Int (negsuc 0))) [] [] ≡ Faults OutOfBounds (at 1) }
    ensures index_first { evaluate indexed 0 [] (Within (at 1) 4 (Load (buffer 0) (at 2) (uint 0))) [] [] ≡ Needs (buffer 0) 0 (at 2) }
{}

/// What is not reckoned is what the launch's machine gives, as 32 bits of the kind: it is told the operation, its place, the item, the
/// moment and the operands. So at one place there may be another number in each turn of a loop.
pub fn machines_give_what_is_not_reckoned()
    ensures by_place { evaluate (on_machine telling half_waits) 3 [] (Opaque 5 6 Uint (uint 0) (uint 0) (uint 0)) [] [] ≡ Gives (word Uint (pos 5630)) [] }
    ensures another_place { evaluate (on_machine telling half_waits) 3 [] (Opaque 5 7 Uint (uint 0) (uint 0) (uint 0)) [] [] ≡ Gives (word Uint (pos 5730)) [] }
    ensures by_moment { evaluate (on_machine telling half_waits) 3 (4 ∷ 0 ∷ 0 ∷ 0 ∷ 2 ∷ 4 ∷ 0 ∷ 0 ∷ []) (Opaque 5 6 Uint (uint 0) (uint 0) (uint 0)) [] [] ≡ Gives (word Uint (pos 5634)) [] }
    ensures bits { evaluate (on_machine (λ o. o.first) half_waits) 0 [] (Opaque 0 0 Uint (Literal Int (negsuc 0)) (uint 0) (uint 0)) [] [] ≡ Gives (word Uint (pos 4294967295)) [] }
    ensures in_order { evaluate (on_machine telling indexed) 0 [] (Opaque 0 0 Uint (Load (buffer 0) (at 1) (uint 0)) (Load (buffer 1) (at 2) (uint 0)) (Load (buffer 2) (at 3) (uint 0))) [] (word Uint (pos 4) ∷ word Uint (pos 4) ∷ []) ≡ Needs (buffer 2) 0 (at 3) }
    ensures silent { evaluate half_waits 3 [] (Opaque 5 6 Int (uint 0) (uint 0) (uint 0)) [] [] ≡ Gives (word Int (pos 0)) [] }
    ensures turns { after_run asked_twice (steps 7 0) (λ w. noted 1 101 w && noted 2 102 w) ≡ true }
{}

/// `&&`, `||` and `?:` evaluate only what decides, operands go from left to right, an index before the value, and the
/// value's conversion before the test of the index.
pub fn evaluation_is_ordered()
    ensures and_decides { evaluate indexed 0 [] (And (uint 0) (Load (buffer 0) (at 1) (uint 0))) [] [] ≡ Gives (word Int (pos 0)) [] }
    ensures or_decides { evaluate indexed 0 [] (Or (uint 2) (Binary Divide Uint (at 1) (uint 1) (uint 0))) [] [] ≡ Gives (word Int (pos 1)) [] }
    ensures select_decides { evaluate indexed 0 [] (Select (uint 0) (Load (buffer 0) (at 1) (uint 9)) (uint 3)) [] [] ≡ Gives (word Uint (pos 3)) [] }
    ensures left { evaluate indexed 0 [] (Binary Add Uint (at 3) (Load (buffer 1) (at 1) (uint 0)) (Load (buffer 2) (at 2) (uint 0))) [] [] ≡ Needs (buffer 1) 0 (at 1) }
    ensures right { evaluate indexed 0 [] (Binary Add Uint (at 3) (Load (buffer 1) (at 1) (uint 0)) (Load (buffer 2) (at 2) (uint 0))) [] (word Uint (pos 4) ∷ []) ≡ Needs (buffer 2) 0 (at 2) }
    ensures index_first { number_at indexed (steps 1 0) ≡ 1 }
    ensures value_then_test { (after indexed 0 (pos 0 ∷ pos 0 ∷ pos 7 ∷ [])).status ≡ Stopped OutOfBounds (at 1) }
    ensures conversion_then_test { (after converted 0 (pos 0 ∷ [])).status ≡ Stopped Overflow (at 2) }
{}

/// `break` and `continue` find their own loop, a loop that is entered again counts from 0, and an endless kernel that
/// races is not pair-safe within any budget.
pub fn loops_are_counted()
    ensures breaks { after_run broken (steps 2 0) (λ w. front_is 0 (4 ∷ 0 ∷ 0 ∷ 0 ∷ []) w) ≡ true }
    ensures continues { after_run continued (steps 3 0) (λ w. front_is 0 (3 ∷ 0 ∷ 0 ∷ 0 ∷ 1 ∷ 1 ∷ 0 ∷ 0 ∷ []) w) ≡ true }
    ensures again { after_run nested (steps 6 0) (λ w. front_is 0 (2 ∷ 0 ∷ 0 ∷ 0 ∷ 3 ∷ 0 ∷ 0 ∷ 0 ∷ 1 ∷ 2 ∷ 0 ∷ 0 ∷ []) w) ≡ true }
    ensures endless { (bound : ℕ) → IsPairSafe for_ever bound → ⊥ }
{}

/// If half of a group waits and an item of the other half has ended, they diverge; if all wait at one statement in different iterations,
/// nothing is released.
pub fn barriers_are_uniform()
    ensures half { after_run half_waits (Step 0 ∷ Step 0 ∷ Step 32 ∷ []) (λ w. diverges half_waits w 0 32 && not (is_possible half_waits w (Release 0))) ≡ true }
    ensures turns { after_run other_turns turned (λ w. front_is 0 (6 ∷ 0 ∷ 1 ∷ 0 ∷ 4 ∷ 0 ∷ 0 ∷ 0 ∷ 2 ∷ 1 ∷ 0 ∷ 0 ∷ []) w && front_is 1 (6 ∷ 0 ∷ 1 ∷ 0 ∷ 4 ∷ 0 ∷ 0 ∷ 0 ∷ 2 ∷ 2 ∷ 0 ∷ 0 ∷ []) w && waits (w.items 2).status && waits (w.items 3).status && not (is_possible other_turns w (Release 0))) ≡ true }
{}

/// A store is seen by another item from the next round on; a barrier orders the space of its flags alone, and no two groups.
pub fn stores_are_ordered()
    ensures same_round { result_by_rounds (crossing []) 4 (record { owner = 0; array = 1; index = 0 }) ≡ pos 0 }
    ensures next_round { result_by_rounds (crossing (Barrier 2 false true ∷ [])) 5 (record { owner = 0; array = 1; index = 0 }) ≡ pos 1 }
    ensures local_fence { after_run (crossing (Barrier 2 true false ∷ [])) crossed (λ w. has_clash (crossing []) w.history) ≡ true }
    ensures global_fence { after_run (crossing (Barrier 2 false true ∷ [])) crossed (λ w. not (has_clash (crossing []) w.history)) ≡ true }
    ensures local_fence_of_arrays { after_run (crossing_local true false) crossed (λ w. not (has_clash (crossing_local true false) w.history)) ≡ true }
    ensures global_fence_of_arrays { after_run (crossing_local false true) crossed (λ w. has_clash (crossing_local false true) w.history) ≡ true }
    ensures groups { after_run two_groups (Step 1 ∷ Step 0 ∷ []) (λ w. has_clash two_groups w.history) ≡ true }
    ensures filled { after_run own_array (steps 2 0 ++ steps 2 1) (λ w. int_eq (w.memory (record { owner = 0; array = 0; index = 1 })) (pos 9)) ≡ true }
    ensures own { after_run own_array (steps 3 0 ++ steps 3 1 ++ steps 2 0 ++ steps 2 1) (λ w. int_eq (w.memory (record { owner = 0; array = 0; index = 0 })) (pos 0) && not (has_clash own_array w.history)) ≡ true }
{}
