//! A worker's deque of stretches of groups, by their numbers.

ghost use Rattle.std.specs.Prelude.{◌≡◌, ◌<◌, ◌%◌, ℕ, true, [], IfOk, IfSome, MatchOption};
ghost use Rattle.crossbeam_deque.specs.Handles.{view, IsPassOf, stealer_deque, worker_deque, worker_flavor, worker_view};
ghost use Rattle.crossbeam_deque.specs.Steals.{MatchSteal};
ghost use Rattle.group_workers.specs.Dealing.{IsOfShare, Took};

use crate::Hand;
use crossbeam_deque::protocol::{Lesson, Outcome, Protocol};
use crossbeam_deque::{Pass, Steal, Stealer, Worker};
use std::alloc::{AllocError, Global};
use std::marker::{Brand, PhantomData};

/// How many workers share the stretches. Each call picks it.
pub trait Shares {
    ghost workers: { ℕ };
}

impl Shares for Brand {
    ghost workers = { 1 };
}

/// The rule of a deque.
pub struct Dealt<D: Shares> {
    of: PhantomData<D>,
}

impl<D: Shares> Protocol<u64, Hand> for Dealt<D> {
    ghost use Rattle.std.specs.Prelude.{true, false, []};
    ghost use Rattle.group_workers.specs.Dealing.{hand, Deals};

    ghost holds = { Deals D.workers };

    ghost first = { hand true 0 [] };

    ghost guest = { hand false 0 [] };
}

/// A push of the owner's next number.
pub struct Puts<D: Shares> {
    of: PhantomData<D>,
}

impl<D: Shares> Outcome<u64, Hand> for Puts<D> {
    ghost use Rattle.std.specs.Prelude.{◌≡◌, ◌+◌, true, slice_index};
    ghost use Rattle.group_workers.specs.Dealing.{hand};

    ghost then = { λ v xs w. w ≡ hand true (slice_index xs 0 + D.workers) v.taken };
}

/// A pop or a steal.
pub struct Takes<D: Shares> {
    of: PhantomData<D>,
}

impl<D: Shares> Outcome<u64, Hand> for Takes<D> {
    ghost use Rattle.std.specs.Prelude.{slice_index};
    ghost use Rattle.group_workers.specs.Dealing.{Took};

    ghost then = { λ v xs w. Took D.workers v (slice_index xs 0) w };
}

/// A count of what a deque has, of which nothing is learnt.
pub struct Counts<D: Shares> {
    of: PhantomData<D>,
}

impl<D: Shares> Lesson<u64, Hand> for Counts<D> {
    ghost use Rattle.std.specs.Prelude.{⊤};

    ghost fact = { λ _ _. ⊤ };
}

/// The side of a deque from which thieves take stretches, in any thread.
pub type Source<D> = Stealer<u64, Global, Hand, Dealt<D>>;

/// A deque whose owner takes at the front.
#[derive(Drop)]
pub struct Deque<D: Shares> {
    worker: Worker<u64, Global, Hand, Dealt<D>>,
    ghost fifo: { worker_flavor worker ≡ 0 },
    ghost owner: { (worker_view worker).owns ≡ true },
}

impl<D: Shares> Deque<D> {
    /// The deque of a share: the stretches below `count` that are the share modulo the number of workers. A refused push leaves its stretch
    /// out.
    pub fn dealt(
        alloc: Global,
        share: u64,
        workers: u64,
        count: u64,
    ) -> Result<Deque<D>, AllocError>
        requires { (workers ≡ D.workers) × (0 < workers) × (share < workers) }
        ensures none { IfOk result (λ d. (worker_view d.worker).taken ≡ []) }
        ensures share { IfOk result (λ d. IsOfShare workers share (worker_view d.worker)) }
    {
        let mut worker = Worker::fifo_as(alloc, 1)?;
        let mut stretch = share;
        while stretch < count {
            let _pushed = worker.push_as::<Puts<D>>(stretch);
            let Some(next) = stretch.checked_add(workers) else {
                break;
            };
            stretch = next;
        }
        Ok(Deque { worker })
    }

    /// The side of the deque from which thieves take.
    pub fn source(&self) -> Result<Source<D>, AllocError>
        ensures { IfOk result (λ s. stealer_deque s ≡ worker_deque self.now.worker) }
    {
        self.worker.stealer()
    }

    /// Whether no stretch was left at one moment.
    pub fn is_empty(&mut self) -> bool
        ensures { worker_deque self.new.worker ≡ worker_deque self.old.worker }
    {
        self.worker.len_as::<Counts<D>>() == 0
    }

    /// The first stretch that is left. The owner had not taken it before.
    pub fn take(&mut self) -> Option<u64>
        ensures same { worker_deque self.new.worker ≡ worker_deque self.old.worker }
        ensures took { MatchOption result (worker_view self.new.worker ≡ worker_view self.old.worker) (λ x. Took D.workers (worker_view self.old.worker) x (worker_view self.new.worker)) }
        ensures own { IfSome result (λ x. (x < (worker_view self.old.worker).next) × (x % D.workers ≡ (worker_view self.old.worker).next % D.workers)) }
    {
        self.worker.pop_as::<Takes<D>>()
    }
}

/// A taker of stretches from one deque, in any thread. It keeps what it has taken from one steal to the next.
#[derive(Drop)]
pub struct Thief<'d, D: Shares> {
    source: &'d Source<D>,
    pass: Pass<u64, Hand>,
    ghost entered: { IsPassOf (stealer_deque source.now) pass },
}

impl<'d, D: Shares> Thief<'d, D> {
    /// A thief that has taken nothing.
    pub fn of(source: &'d Source<D>) -> Thief<'d, D>
        ensures same { stealer_deque result.source.now ≡ stealer_deque source.now }
        ensures none { (view result.pass).taken ≡ [] }
    {
        Thief {
            source,
            pass: source.pass(),
        }
    }

    /// Takes the first stretch that is left, if it can. This thief had not taken it before.
    pub fn steal(&mut self) -> Steal<u64>
        ensures same { stealer_deque self.new.source.now ≡ stealer_deque self.old.source.now }
        ensures took { MatchSteal result (view self.new.pass ≡ view self.old.pass) (view self.new.pass ≡ view self.old.pass) (λ x. Took D.workers (view self.old.pass) x (view self.new.pass)) }
    {
        self.source.steal_as::<Takes<D>>(&mut self.pass)
    }
}
