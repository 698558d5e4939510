//! The ticket lock and its calls.

ghost use Rattle.std.specs.Prelude.{◌≡◌, ◌⊎◌, ◌+◌, ◌<◌, ◌≤◌, IfOk, IfErr, IsErr};
ghost use Rattle.turn_lock.specs.Ticket.{last_word, opened, idle_at, looked_at, waiting_for, in_section, after_section, IsWaiting};
ghost use Rattle.turn_lock.specs.Steps.{Begins};

use super::fault::{DrawFault, Raced};
use super::pass::{Drawn, Holding, Looked, Pass};
use super::rule::{Beside, Draw, Leave, Look, Opening, Serve, Settle, Tickets, Twice};
use super::view::TicketView;
use crate::growing::Growing;
use crate::section::Worn;
use atomic_table::{Refused, Seat, Table};
use crossbeam_utils::Backoff;
use std::alloc::{AllocError, Global};
use std::snapshot::Snapshot;
use std::sync::Wait;

/// A value protected by two words, whose passes are served in the order of their tickets. Tickets
/// run to 2^64 - 2.
#[derive(Drop)]
pub struct TicketLock<T: Growing> {
    table: Table<Option<T>, TicketView<T>, Opening<T>, Tickets<T>, Global>,
    ghost words: { table.shared.table_id.words ≡ 2 },
    ghost slots: { table.shared.table_id.slots ≡ 1 },
}

impl<T: Growing + Drop> TicketLock<T> {
    ghost use Rattle.turn_lock.specs.TicketShown.{IsPassOf, pass_knows};

    /// Creates a lock with the given value and the first ticket 0, and its first pass.
    ///
    /// # Errors
    ///
    /// Returns `AllocError` and drops the value if memory cannot be allocated.
    pub fn new(alloc: Global, value: T) -> Result<(TicketLock<T>, Pass<T>), AllocError>
        ensures own { IfOk result (λ r. IsPassOf r.0 r.1) }
        ensures knows { IfOk result (λ r. pass_knows r.1 ≡ opened 0 value) }
    {
        TicketLock::new_at(alloc, value, 0)
    }

    /// Creates a lock with the given value and first ticket, and its first pass. A lock whose first
    /// ticket is 2^64 - 1 has no ticket to draw.
    ///
    /// # Errors
    ///
    /// Returns `AllocError` and drops the value if memory cannot be allocated.
    pub fn new_at(
        alloc: Global,
        value: T,
        first: u64,
    ) -> Result<(TicketLock<T>, Pass<T>), AllocError>
        ensures own { IfOk result (λ r. IsPassOf r.0 r.1) }
        ensures knows { IfOk result (λ r. pass_knows r.1 ≡ opened first value) }
    {
        let about = Opening {
            first,
            value: Snapshot::of(&value),
        };
        let mut slots = Vec::with_capacity(alloc, 1)?;
        slots.push(Some(value))?;
        match Table::new(alloc, &[first, first], slots, &about) {
            Ok((table, seat)) => Ok((TicketLock { table }, Pass { seat })),
            Err(Refused { slots: _ }) => Err(AllocError),
        }
    }
}

impl<T: Growing> TicketLock<T> {
    ghost use Rattle.turn_lock.specs.TicketShown.{IsPassOf, IsLookedOf, IsDrawnOf, IsHoldingOf, IsWornPass, IsRefused, HasMet, pass_knows, looked_knows, drawn_knows, holding_knows, looked_next, drawn_ticket, held_ticket};

    /// Splits a pass in two. Each of them has seen what the given pass has seen. The call neither
    /// waits nor allocates memory.
    pub fn split(&self, pass: Pass<T>) -> (Pass<T>, Pass<T>)
        requires { IsPassOf self.now pass }
        ensures own { IsPassOf self.now result.0 × IsPassOf self.now result.1 }
        ensures knows { (pass_knows result.0 ≡ pass_knows pass)
            × (pass_knows result.1 ≡ pass_knows pass) }
    {
        let Pass { mut seat } = pass;
        let other = self.table.shared.split_seat::<Twice>(&mut seat);
        (Pass { seat }, Pass { seat: other })
    }

    /// Exchanges what two passes of this lock have seen. Afterwards both have seen the later of the
    /// two values and the greater of the two next tickets, so both are worn if one of them was, and
    /// both have the first one's tally. The call neither waits nor allocates memory.
    ///
    /// The value need not be the current one of the lock, since another pass may have left a later
    /// value.
    pub fn meet(&self, one: Pass<T>, other: Pass<T>) -> (Pass<T>, Pass<T>)
        requires { IsPassOf self.now one × IsPassOf self.now other }
        ensures own { IsPassOf self.now result.0 × IsPassOf self.now result.1 }
        ensures met { HasMet T.leads (pass_knows one) (pass_knows other) (pass_knows result.0) }
        ensures same { pass_knows result.1 ≡ pass_knows result.0 }
        ensures worn { IsWornPass one ⊎ IsWornPass other
            → IsWornPass result.0 × IsWornPass result.1 }
    {
        let Pass { mut seat } = one;
        let Pass { seat: second } = other;
        self.table.shared.join_seat::<Beside>(&mut seat, second);
        // Both values lead to the current one, so one of them leads to the other, and the joined
        // pass may keep the later one.
        self.table.shared.load::<Settle<T>>(&mut seat, 0);
        let second = self.table.shared.split_seat::<Twice>(&mut seat);
        (Pass { seat }, Pass { seat: second })
    }

    /// Looks at the next ticket with one load.
    ///
    /// # Errors
    ///
    /// Returns `Worn` with the pass if no ticket is left. Every later look by this pass returns
    /// `Worn`, too.
    pub fn look(&self, pass: Pass<T>) -> Result<Looked<T>, (Worn, Pass<T>)>
        requires { IsPassOf self.now pass }
        ensures own { IfOk result (λ r. IsLookedOf self.now r) }
        ensures looked { IfOk result (λ r. looked_knows r
            ≡ looked_at (pass_knows pass) (looked_next r)) }
        ensures next { IfOk result (λ r. ((pass_knows pass).next ≤ looked_next r)
            × (looked_next r < last_word)) }
        ensures back { IfErr result (λ e. IsPassOf self.now e.1) }
        ensures worn { IfErr result (λ e. pass_knows e.1 ≡ idle_at (pass_knows pass) last_word) }
        ensures late { IsWornPass pass → IsErr result }
    {
        let Pass { mut seat } = pass;
        let next = self.table.shared.load::<Look>(&mut seat, 0);
        if next == u64::MAX {
            return Err((Worn, Pass { seat }));
        }
        Ok(Looked { seat, next })
    }

    /// Draws the ticket that the pass has looked at, with one compare and exchange.
    ///
    /// # Errors
    ///
    /// Returns `Raced` with the pass if another pass has drawn this ticket.
    pub fn draw(&self, looked: Looked<T>) -> Result<Drawn<T>, (Raced, Pass<T>)>
        requires { IsLookedOf self.now looked }
        ensures own { IfOk result (λ r. IsDrawnOf self.now r) }
        ensures drawn { IfOk result (λ r. drawn_knows r
            ≡ waiting_for (looked_knows looked) (drawn_ticket r)) }
        ensures ticket { IfOk result (λ r. drawn_ticket r ≡ looked_next looked) }
        ensures back { IfErr result (λ e. IsPassOf self.now e.1) }
        ensures raced { IfErr result (λ e. (looked_next looked < e.0.next)
            × (pass_knows e.1 ≡ idle_at (looked_knows looked) e.0.next)) }
    {
        let Looked { mut seat, next } = looked;
        let found = self
            .table
            .shared
            .compare_exchange::<Draw>(&mut seat, 0, next, next + 1);
        if found == next {
            return Ok(Drawn { seat, ticket: next });
        }
        Err((Raced { next: found }, Pass { seat }))
    }

    /// Looks at the next ticket and draws it.
    ///
    /// # Errors
    ///
    /// Returns `Worn` with the pass if no ticket is left, and `Raced` if another pass drew the
    /// ticket between the look and the draw.
    pub fn try_draw(&self, pass: Pass<T>) -> Result<Drawn<T>, (DrawFault, Pass<T>)>
        requires { IsPassOf self.now pass }
        ensures own { IfOk result (λ r. IsDrawnOf self.now r) }
        ensures drawn { IfOk result (λ r. drawn_knows r
            ≡ waiting_for (pass_knows pass) (drawn_ticket r)) }
        ensures ticket { IfOk result (λ r. ((pass_knows pass).next ≤ drawn_ticket r)
            × (drawn_ticket r < last_word)) }
        ensures back { IfErr result (λ e. IsPassOf self.now e.1) }
        ensures refused { IfErr result (λ e. IsRefused (pass_knows pass) e.0 (pass_knows e.1)) }
        ensures late { IsWornPass pass → IfErr result (λ e. e.0 ≡ DrawFault.Worn) × IsErr result }
    {
        let looked = match self.look(pass) {
            Ok(looked) => looked,
            Err((Worn, pass)) => return Err((DrawFault::Worn, pass)),
        };
        match self.draw(looked) {
            Ok(drawn) => Ok(drawn),
            Err((Raced { next }, pass)) => Err((DrawFault::Raced { next }, pass)),
        }
    }

    // Loads the served ticket until it is this one, with a pause between two loads.
    fn await_turn<R: Wait>(
        &self,
        rt: &R,
        mut seat: Seat<Option<T>, TicketView<T>>,
        ticket: u64,
    ) -> Seat<Option<T>, TicketView<T>>
        requires own { seat.table_id ≡ self.now.table.shared.table_id }
        requires waiting { IsWaiting seat.me ticket }
        ensures own { result.table_id ≡ seat.table_id }
        ensures begun { Begins T.leads ticket seat.me result.me }
    {
        let backoff = Backoff::new();
        for _ in rt.forever() {
            let served = self.table.shared.load::<Serve<T>>(&mut seat, 1);
            if served == ticket {
                return seat;
            }
            backoff.snooze();
        }
        unreachable!()
    }

    /// Waits until the ticket is served, and returns the value with the holder of the critical
    /// section.
    pub fn enter<R: Wait>(&self, rt: &R, drawn: Drawn<T>) -> (T, Holding<T>)
        requires { IsDrawnOf self.now drawn }
        ensures own { IsHoldingOf self.now result.1 }
        ensures ticket { held_ticket result.1 ≡ drawn_ticket drawn }
        ensures found { holding_knows result.1
            ≡ in_section (drawn_knows drawn) (drawn_ticket drawn) result.0 }
        ensures fresh { T.leads (drawn_knows drawn).seen result.0 }
    {
        let Drawn { seat, ticket } = drawn;
        let mut seat = self.await_turn(rt, seat, ticket);
        let taken = self.table.shared.exchange(&mut seat, 0, None);
        let Some(value) = taken else { unreachable!() };
        (
            value,
            Holding {
                seat,
                section: ticket,
            },
        )
    }

    /// Ends the critical section and leaves the value for the next pass. The call neither waits nor
    /// allocates memory.
    pub fn leave(&self, holding: Holding<T>, value: T) -> Pass<T>
        requires own { IsHoldingOf self.now holding }
        requires grown { T.leads (holding_knows holding).seen value }
        ensures own { IsPassOf self.now result }
        ensures knows { pass_knows result
            ≡ after_section (holding_knows holding) (held_ticket holding) value }
    {
        let Holding {
            mut seat,
            section: _,
        } = holding;
        let empty = self.table.shared.exchange(&mut seat, 0, Some(value));
        let None = empty else { unreachable!() };
        self.table.shared.fetch_add::<Leave<T>>(&mut seat, 1, 1);
        Pass { seat }
    }

    /// Retires the lock: returns the value and never ends the critical section, so that no other
    /// pass is served afterwards. Call it only after all other threads have returned, since a
    /// thread that is waiting would wait forever.
    pub fn retire(&self, holding: Holding<T>, value: T) -> T
        requires { IsHoldingOf self.now holding }
        ensures { result ≡ value }
    {
        let Holding { seat, section: _ } = holding;
        drop(seat);
        value
    }

    // Tries until the pass has drawn a ticket or no ticket is left, with a pause after each miss.
    fn obtain<R: Wait>(&self, rt: &R, mut pass: Pass<T>) -> Result<Drawn<T>, (Worn, Pass<T>)>
        requires { IsPassOf self.now pass }
        ensures own { IfOk result (λ r. IsDrawnOf self.now r) }
        ensures drawn { IfOk result (λ r. drawn_knows r
            ≡ waiting_for (pass_knows pass) (drawn_ticket r)) }
        ensures ticket { IfOk result (λ r. ((pass_knows pass).next ≤ drawn_ticket r)
            × (drawn_ticket r < last_word)) }
        ensures back { IfErr result (λ e. IsPassOf self.now e.1) }
        ensures worn { IfErr result (λ e. pass_knows e.1 ≡ idle_at (pass_knows pass) last_word) }
    {
        let backoff = Backoff::new();
        for _ in rt.forever() {
            pass = match self.try_draw(pass) {
                Ok(drawn) => return Ok(drawn),
                Err((DrawFault::Worn, back)) => return Err((Worn, back)),
                Err((DrawFault::Raced { next: _ }, back)) => back,
            };
            backoff.snooze();
        }
        unreachable!()
    }

    /// Draws a ticket and waits until it is served.
    ///
    /// # Errors
    ///
    /// Returns `Worn` with the pass if no ticket is left. Every later call with this pass returns
    /// `Worn`, too.
    pub fn lock<R: Wait>(&self, rt: &R, pass: Pass<T>) -> Result<(T, Holding<T>), (Worn, Pass<T>)>
        requires { IsPassOf self.now pass }
        ensures own { IfOk result (λ r. IsHoldingOf self.now r.1) }
        ensures found { IfOk result (λ r. holding_knows r.1
            ≡ in_section (waiting_for (pass_knows pass) (held_ticket r.1)) (held_ticket r.1) r.0) }
        ensures fresh { IfOk result (λ r. T.leads (pass_knows pass).seen r.0) }
        ensures ticket { IfOk result (λ r. ((pass_knows pass).next ≤ held_ticket r.1)
            × (held_ticket r.1 < last_word)) }
        ensures back { IfErr result (λ e. IsPassOf self.now e.1) }
        ensures worn { IfErr result (λ e. pass_knows e.1 ≡ idle_at (pass_knows pass) last_word) }
        ensures late { IsWornPass pass → IsErr result }
    {
        match self.obtain(rt, pass) {
            Ok(drawn) => Ok(self.enter(rt, drawn)),
            Err(worn) => Err(worn),
        }
    }
}

impl<T> Looked<T> {
    ghost use Rattle.turn_lock.specs.TicketShown.{looked_next};

    /// Returns the next ticket that the look found. This is the ticket that `draw` would draw.
    pub fn next(&self) -> u64
        ensures { result ≡ looked_next self.now }
    {
        self.next
    }
}

impl<T> Drawn<T> {
    ghost use Rattle.turn_lock.specs.TicketShown.{drawn_ticket};

    /// Returns the ticket that the pass has drawn.
    pub fn ticket(&self) -> u64
        ensures { result ≡ drawn_ticket self.now }
    {
        self.ticket
    }
}

impl<T> Holding<T> {
    ghost use Rattle.turn_lock.specs.TicketShown.{held_ticket};

    /// Returns the ticket of the critical section.
    pub fn ticket(&self) -> u64
        ensures { result ≡ held_ticket self.now }
    {
        self.section
    }
}
