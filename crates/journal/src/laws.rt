//! Laws of journals and of the states of a gate, to be cited by other proofs. The calls have no
//! effect.
ghost use Rattle.journal.specs.Laws.{
  EmptyJournalIsLawful,
  FittingEventKeepsLawful,
  FinishedTakesAll,
  FinishedIsFinal,
  LeadsToItself,
  LeadsOn,
  LeadsEither,
  OfferGoes,
  EndGoes,
  TakeGoes,
  FinishGoes,
  StopGoes,
  JobsAreStable,
};
ghost use Rattle.journal.specs.InOrder.{DueClaimStaysInOrder, OrderIsOne};
ghost use Rattle.journal.specs.Turns.{TakeTurns};
ghost use Rattle.journal.specs.Families.{FamiliesAreTheirMembers};

/// The empty journal is lawful. If the close is due at once, the journal with the close alone is
/// lawful.
pub fn empty_journal_is_lawful()
    ensures { EmptyJournalIsLawful }
{}

/// A lawful journal stays lawful when an event that fits is appended, followed by the close if it
/// is then due.
pub fn fitting_event_keeps_lawful()
    ensures { FittingEventKeepsLawful }
{}

/// The number of claims that a finished journal has accepted is the number of all claims, or the
/// cutoff if that is less.
pub fn finished_takes_all()
    ensures { FinishedTakesAll }
{}

/// A finished journal is final: a lawful journal that begins with it is the same journal.
pub fn finished_is_final()
    ensures { FinishedIsFinal }
{}

/// The relation "leads to" between the states of a gate is reflexive and transitive.
pub fn leads_in_order()
    ensures itself { LeadsToItself }
    ensures on { LeadsOn }
{}

/// If two states of a gate lead to a third one, one of the two leads to the other.
pub fn histories_are_linear()
    ensures { LeadsEither }
{}

/// Each call of the sequential gate changes a lawful state to a lawful one, and the old state leads
/// to the new one.
pub fn gate_keeps_lawful()
    ensures offer { OfferGoes }
    ensures end { EndGoes }
    ensures take { TakeGoes }
    ensures finish { FinishGoes }
    ensures stop { StopGoes }
{}

/// A job that was taken does not change in later states of the gate: its claim and its accumulators
/// depend only on the claims that were accepted before it.
pub fn jobs_are_stable()
    ensures { JobsAreStable }
{}

/// In a lawful journal the claims of a family, those of all its members, are decided one after
/// another: each is taken and decided before the next one is taken, in the order of their
/// acceptance.
pub fn members_take_turns()
    ensures { TakeTurns }
{}

/// The accumulators of a family before a claim are the sums over its members: of the amounts met of
/// the deductible, and of the amounts paid out of pocket.
pub fn families_are_their_members()
    ensures { FamiliesAreTheirMembers }
{}

/// An order of acceptance leaves no choice: of two lists of its first claims the shorter one begins
/// the longer one.
pub fn order_leaves_no_choice()
    ensures { OrderIsOne }
{}

/// If acceptance has followed an order, it still does after a claim is accepted for which all
/// claims before it in the order are accepted.
pub fn due_claim_stays_in_order()
    ensures { DueClaimStaysInOrder }
{}
