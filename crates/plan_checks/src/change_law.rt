//! The law of plans between which no change is listed. The function has an empty body.
ghost use Rattle.plan_zones.specs.Changes.{UnlistedSettleAlike};

/// If remarks are compared and no box is listed, both plans give each claim the same outcome, whatever
/// its billed amount and its accumulators.
///
/// For example, if a plan only has its rules in another order and `plan_changes` lists no box, no
/// payment changes.
pub fn unlisted_settle_alike()
    ensures { UnlistedSettleAlike }
{}
