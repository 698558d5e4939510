//! The first of the files' next claims.
ghost use Rattle.std.specs.Prelude.{◌≡◌, ◌<◌, ◌+◌, length};
ghost use Rattle.ordered_claims.specs.FirstHead.{IsFirstOf, is_sooner as sooner};

use crate::file_queue::FileQueue;
use claim_gate::BoxedClaim;
use feel_tests::Day;
use journal::Order;

/// A file's next claim.
#[derive(Clone, Copy)]
pub(crate) struct Head {
    /// The index of the file, from 0.
    pub(crate) index: usize,
    /// The day of service of the claim.
    pub(crate) day: Day,
}

/// Returns the first of the files' next claims in an order, or `None` if no file has a claim left.
pub(crate) fn first_head(order: Order, files: &[FileQueue]) -> Option<Head>
    ensures { IsFirstOf order files.now (length files.now) result }
{
    let mut first = None;
    for index in 0..files.len() {
        first = first_with(order, files, first, index);
    }
    first
}

// Returns the first of the next claims of the files up to this index, given the first of those before it.
fn first_with(order: Order, files: &[FileQueue], first: Option<Head>, index: usize) -> Option<Head>
    requires within { index < length files.now }
    requires first { IsFirstOf order files.now index first }
    ensures { IsFirstOf order files.now (index + 1) result }
{
    let Some(day) = files[index].first_day() else {
        return first;
    };
    let head = Head { index, day };
    let Some(earlier) = first else {
        return Some(head);
    };
    if is_sooner(order, head.day, earlier.day) {
        return Some(head);
    }
    Some(earlier)
}

// Returns whether a later file's claim of the first day comes before an earlier file's claim of the second day.
fn is_sooner(order: Order, later: Day, earlier: Day) -> bool
    ensures { result ≡ sooner order later earlier }
{
    match order {
        Order::Any => false,
        Order::Files => false,
        Order::Service => later.epoch_day() < earlier.epoch_day(),
    }
}

/// Returns the next claims of the file at `index` up to the one that comes after a next claim of another
/// file.
pub(crate) fn claims_before_others<'c>(
    order: Order,
    files: &[FileQueue],
    index: usize,
    claims: &'c [BoxedClaim],
) -> &'c [BoxedClaim]
    requires { index < length files.now }
{
    let earlier = first_head(order, &files[..index]);
    let later = first_head(order, &files[index + 1..]);
    for place in 0..claims.len() {
        let day = claims[place].as_claim().service;
        if !comes_first(order, day, earlier.as_ref(), later.as_ref()) {
            return &claims[..place];
        }
    }
    claims
}

// Returns whether a claim of this day comes before these next claims, one of an earlier and one of a later file.
fn comes_first(order: Order, day: Day, earlier: Option<&Head>, later: Option<&Head>) -> bool {
    if let Some(head) = earlier
        && !is_sooner(order, day, head.day)
    {
        return false;
    }
    let Some(head) = later else {
        return true;
    };
    !is_sooner(order, head.day, day)
}
