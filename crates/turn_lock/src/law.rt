//! The laws of the locks: each kind of step preserves the rule of its lock, and the rule has the
//! consequences that are listed here. The calls have no effect.

ghost use Rattle.std.specs.Prelude.{◌≤◌};
ghost use Rattle.turn_lock.specs.Laws.{SpinStepsKeepRule, SpinRuleSays, TicketStepsKeepRule, TicketStepsForgetNothing, TicketStepsKeepTally, TicketRuleSays};
ghost use Rattle.turn_lock.specs.Later.{TicketsComeOnce};

use crate::growing::Growing;

/// Each step of a spin lock preserves the rule of the lock. The law uses the definitions that the
/// contracts of the calls use.
pub fn spin_steps_keep_the_rule<T: Growing>()
    ensures { SpinStepsKeepRule T.leads }
{}

/// In a spin lock at most one pass is in its critical section, and every value that a pass has seen
/// leads to the current value.
pub fn spin_rule_says<T: Growing>()
    ensures { SpinRuleSays T.leads }
{}

/// Each step of a ticket lock with the given first ticket preserves the rule of the lock. The law
/// uses the definitions that the contracts of the calls use.
pub fn ticket_steps_keep_the_rule<T: Growing>(first: u64)
    ensures { TicketStepsKeepRule T.leads first }
{
    // proof: the ticket is in its range
    let _first = first;
}

/// In a ticket lock with the given first ticket at most one pass is in its critical section, no two
/// passes have the same ticket, and every value that a pass has seen leads to the current value.
/// Once a pass has seen that no ticket is left, no ticket is drawn again.
pub fn ticket_rule_says<T: Growing>(first: u64)
    ensures { TicketRuleSays T.leads first }
{
    // proof: the ticket is in its range
    let _first = first;
}

/// No step of a ticket lock forgets a value or a ticket that its pass has seen.
pub fn ticket_steps_forget_nothing<T: Growing>()
    ensures { TicketStepsForgetNothing T.leads }
{}

/// The tally of a pass counts its critical sections: only the step that ends a critical section
/// changes it. When two passes are joined into one, the first one's tally remains.
pub fn ticket_steps_keep_the_tally<T: Growing>()
    ensures { TicketStepsKeepTally T.leads }
{}

/// A ticket lock with the given first ticket issues each ticket at most once, and after a pass has
/// left the critical section of its ticket no pass has this ticket again. So each ticket is served
/// at most once.
pub fn tickets_come_once<T: Growing>(first: u64)
    ensures { TicketsComeOnce T.leads first }
{
    // proof: the ticket is in its range
    let _first = first;
}
