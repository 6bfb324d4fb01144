//! A counted queue and the steps on it.

ghost use Rattle.std.specs.Prelude.{◌≡◌, ◌<◌, ◌≤◌, List, [], ◌∷◌, IfOk, IfErr, IfSome, IfNone};
ghost use Rattle.crossbeam_queue.specs.Fifo.{Forks, Merges, Pushes, Pops, Learns, Held};
ghost use Rattle.counted_queue.specs.Seats.{view, number_of, capacity_of, mark_of, IsSeatOf, HasCountedNone};
ghost use Rattle.counted_queue.specs.Seats.{HasCountedAlike, HasLooked, HasLookedLast, WasRefused};

use crate::seat::Seat;
use crossbeam_queue::RuledArrayQueue;
use crossbeam_queue::protocol::{Join, Lesson, Outcome, Protocol, Split};
use http_server::Log;
use std::alloc::{AllocError, Global};
use std::sync::{OnceLock, OnceToken, Wait};

/// Who may close a queue.
pub trait Closing<V> {
    // By what its holder knows, a seat may close the queue.
    ghost may_close: { V → Type 0 };
}

/// A queue under a caller's rule, and the mark that it is closed.
#[derive(Drop)]
pub struct CountedQueue<T, V, P: Protocol<T, V>> {
    queue: RuledArrayQueue<T, V, P>,
    closed: OnceLock<()>,
}

impl<T, V, P: Protocol<T, V> + Closing<V>> CountedQueue<T, V, P> {
    /// An empty queue that isn't closed, and its first seat.
    pub fn new(
        alloc: Global,
        capacity: usize,
    ) -> Result<(CountedQueue<T, V, P>, Seat<T, V>), AllocError>
        requires capacity { 0 < capacity }
        requires rule { P.holds [] (P.first ∷ []) }
        ensures capacity { IfOk result (λ q. capacity_of q.0 ≡ capacity) }
        ensures queue { IfOk result (λ q. IsSeatOf q.0 q.1) }
        ensures first { IfOk result (λ q. view q.1 ≡ P.first) }
        ensures none { IfOk result (λ q. HasCountedNone q.1) }
    {
        let (queue, pass) = RuledArrayQueue::<T, V, P>::ruled(alloc, capacity)?;
        let closed = OnceLock::new();
        Ok((CountedQueue { queue, closed }, Seat::new(pass)))
    }

    /// Another seat, which has counted nothing.
    pub fn another<M: Split<V>>(&self, seat: &mut Seat<T, V>) -> Seat<T, V>
        requires queue { IsSeatOf self.now seat.old }
        requires rule { Forks P.holds (number_of seat.old) (view seat.old) (M.left (view seat.old))
            (M.right (view seat.old)) }
        ensures queue { IsSeatOf self.now seat.new }
        ensures another { IsSeatOf self.now result }
        ensures left { view seat.new ≡ M.left (view seat.old) }
        ensures right { view result ≡ M.right (view seat.old) }
        ensures counts { HasCountedAlike seat.old seat.new }
        ensures none { HasCountedNone result }
    {
        Seat::new(self.queue.another::<M>(&mut seat.pass))
    }

    /// Takes in another seat. What that one has counted is not added.
    pub fn absorb<M: Join<V>>(&self, seat: &mut Seat<T, V>, other: Seat<T, V>)
        requires queue { IsSeatOf self.now seat.old }
        requires other { IsSeatOf self.now other }
        requires rule { Merges P.holds (number_of seat.old) (view seat.old) (number_of other) (view other)
            (M.both (view seat.old) (view other)) M.spent }
        ensures queue { IsSeatOf self.now seat.new }
        ensures both { view seat.new ≡ M.both (view seat.old) (view other) }
        ensures counts { HasCountedAlike seat.old seat.new }
    {
        let Seat {
            pass,
            empty_looks: _,
            last_looks: _,
            refused: _,
        } = other;
        self.queue.absorb::<M>(&mut seat.pass, pass);
    }

    /// Puts a value after those that wait. Where the queue was full it comes back, and is counted as refused.
    pub fn push<M: Outcome<T, V> + Lesson<T, V>, R: Wait>(
        &self,
        rt: &R,
        seat: &mut Seat<T, V>,
        value: T,
    ) -> Result<(), T>
        requires queue { IsSeatOf self.now seat.old }
        requires rule { Pushes P.holds (capacity_of self.now) (number_of seat.old) (view seat.old) value
            (M.then (view seat.old) value) }
        requires lesson { Learns P.holds (number_of seat.old) (view seat.old) (M.fact (view seat.old)) }
        ensures queue { IsSeatOf self.now seat.new }
        ensures pushed { IfOk result (λ _. M.then (view seat.old) value (view seat.new)) }
        ensures counts { IfOk result (λ _. HasCountedAlike seat.old seat.new) }
        ensures back { IfErr result (λ back. back ≡ value) }
        ensures kept { IfErr result (λ _. view seat.new ≡ view seat.old) }
        ensures refused { IfErr result (λ back. WasRefused seat.old back seat.new) }
        ensures full { IfErr result (λ _. Held (capacity_of self.now) (M.fact (view seat.old))) }
    {
        let pushed = self.queue.push_as::<M, R>(rt, &mut seat.pass, value);
        if let Err(back) = &pushed {
            seat.refused = seat.refused.and(back, &());
        }
        pushed
    }

    /// The value that waited longest. Where none waited, the look is counted as empty.
    pub fn pop<M: Outcome<T, V> + Lesson<T, V>, R: Wait>(
        &self,
        rt: &R,
        seat: &mut Seat<T, V>,
    ) -> Option<T>
        requires queue { IsSeatOf self.now seat.old }
        requires rule { Pops P.holds (number_of seat.old) (view seat.old) (M.then (view seat.old)) }
        requires lesson { Learns P.holds (number_of seat.old) (view seat.old) (M.fact (view seat.old)) }
        ensures queue { IsSeatOf self.now seat.new }
        ensures popped { IfSome result (λ value. M.then (view seat.old) value (view seat.new)) }
        ensures counts { IfSome result (λ _. HasCountedAlike seat.old seat.new) }
        ensures kept { IfNone result (view seat.new ≡ view seat.old) }
        ensures looked { IfNone result (HasLooked seat.old seat.new) }
        ensures empty { IfNone result (Held 0 (M.fact (view seat.old))) }
    {
        let popped = self.queue.pop_as::<M, R>(rt, &mut seat.pass);
        if popped.is_none() {
            seat.empty_looks = seat.empty_looks.and(&(), &());
        }
        popped
    }

    /// The same where the queue is closed, as the token shows: a look that finds nothing is then counted as a last one
    /// too.
    pub fn pop_after<M: Outcome<T, V> + Lesson<T, V>, R: Wait>(
        &self,
        rt: &R,
        seat: &mut Seat<T, V>,
        closed: &OnceToken<'_, ()>,
    ) -> Option<T>
        requires queue { IsSeatOf self.now seat.old }
        requires rule { Pops P.holds (number_of seat.old) (view seat.old) (M.then (view seat.old)) }
        requires lesson { Learns P.holds (number_of seat.old) (view seat.old) (M.fact (view seat.old)) }
        requires closed { closed.now.of ≡ mark_of self.now }
        ensures queue { IsSeatOf self.now seat.new }
        ensures popped { IfSome result (λ value. M.then (view seat.old) value (view seat.new)) }
        ensures counts { IfSome result (λ _. HasCountedAlike seat.old seat.new) }
        ensures kept { IfNone result (view seat.new ≡ view seat.old) }
        ensures looked { IfNone result (HasLookedLast seat.old seat.new) }
        ensures empty { IfNone result (Held 0 (M.fact (view seat.old))) }
    {
        let _shown = closed;
        let popped = self.pop::<M, R>(rt, seat);
        if popped.is_none() {
            seat.last_looks = seat.last_looks.and(&(), &());
        }
        popped
    }

    /// What the rule tells of the values at one moment of the call. It looks for no value.
    pub fn learn<M: Lesson<T, V>>(&self, seat: &mut Seat<T, V>)
        requires queue { IsSeatOf self.now seat.old }
        requires lesson { Learns P.holds (number_of seat.old) (view seat.old) (M.fact (view seat.old)) }
        ensures queue { IsSeatOf self.now seat.new }
        ensures kept { view seat.new ≡ view seat.old }
        ensures counts { HasCountedAlike seat.old seat.new }
        ensures lesson { (items : List T) × M.fact (view seat.old) items }
    {
        self.queue.learn_as::<M>(&mut seat.pass);
    }

    /// The number of values at one moment of the call. It looks for no value.
    pub fn len<M: Lesson<T, V>, R: Wait>(&self, rt: &R, seat: &mut Seat<T, V>) -> usize
        requires queue { IsSeatOf self.now seat.old }
        requires lesson { Learns P.holds (number_of seat.old) (view seat.old) (M.fact (view seat.old)) }
        ensures queue { IsSeatOf self.now seat.new }
        ensures kept { view seat.new ≡ view seat.old }
        ensures counts { HasCountedAlike seat.old seat.new }
        ensures most { result ≤ capacity_of self.now }
        ensures lesson { Held result (M.fact (view seat.old)) }
    {
        self.queue.len_as::<M, R>(rt, &mut seat.pass)
    }

    /// Closes the queue, and answers what shows it. What waits stays there.
    pub fn close<'q, R: Wait>(&'q self, rt: &R, seat: &Seat<T, V>) -> OnceToken<'q, ()>
        requires queue { IsSeatOf self.now seat.now }
        requires leave { P.may_close (view seat.now) }
        ensures { result.of ≡ mark_of self.now }
    {
        let _leave = seat;
        self.closed.init(rt, || ())
    }

    /// What shows that the queue is closed, if it is.
    pub fn closed(&self) -> Option<OnceToken<'_, ()>>
        ensures { IfSome result (λ token. token.of ≡ mark_of self.now) }
    {
        self.closed.witness()
    }
}
