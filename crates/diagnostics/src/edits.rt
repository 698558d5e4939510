//! Compares words for misspellings: two words are near if one edit makes one of the other.

ghost use Rattle.std.specs.Prelude.{◌≡◌, ◌≤◌, ◌↔◌, IsTrue, length, take, drop};
ghost use Rattle.diagnostics.specs.Edits.{DoNotMeet, IsOneEdit, IsWithoutFirst, IsOtherFirst, IsExchanged};

/// Whether the words differ by one edit: an inserted byte, a removed byte, a changed byte, or two swapped neighbours.
pub fn is_one_edit(one: &[u8], other: &[u8]) -> bool
    ensures { IsTrue result ↔ IsOneEdit one.now other.now }
{
    let front = common_length(one, other);
    is_edit_of_front(&one[front..], &other[front..])
}

fn common_length(one: &[u8], other: &[u8]) -> usize
    ensures within_one { result ≤ length one.now }
    ensures within_other { result ≤ length other.now }
    ensures alike { take result one.now ≡ take result other.now }
    ensures apart { DoNotMeet (drop result one.now) (drop result other.now) }
{
    let mut count = 0;
    while count < one.len() && count < other.len() && one[count] == other[count] {
        count += 1;
    }
    count
}

// Without a common first byte, the edit must be at the first byte.
#[tactic(auto, using(crate::proofs::OneEdits::from_without, crate::proofs::OneEdits::from_other_first, crate::proofs::OneEdits::from_exchanged, crate::proofs::OneEdits::goes_back))]
fn is_edit_of_front(one: &[u8], other: &[u8]) -> bool
    requires { DoNotMeet one.now other.now }
    ensures { IsTrue result ↔ IsOneEdit one.now other.now }
{
    if is_without_first(one, other) {
        return true;
    }
    if is_without_first(other, one) {
        return true;
    }
    if is_other_first(one, other) {
        return true;
    }
    is_exchanged(one, other)
}

fn is_without_first(one: &[u8], other: &[u8]) -> bool
    ensures { IsTrue result ↔ IsWithoutFirst one.now other.now }
{
    !one.is_empty() && are_same(&one[1..], other)
}

fn is_other_first(one: &[u8], other: &[u8]) -> bool
    ensures { IsTrue result ↔ IsOtherFirst one.now other.now }
{
    !one.is_empty() && !other.is_empty() && are_same(&one[1..], &other[1..])
}

fn is_exchanged(one: &[u8], other: &[u8]) -> bool
    ensures { IsTrue result ↔ IsExchanged one.now other.now }
{
    one.len() > 1
        && other.len() > 1
        && one[0] == other[1]
        && one[1] == other[0]
        && are_same(&one[2..], &other[2..])
}

fn are_same(one: &[u8], other: &[u8]) -> bool
    ensures { IsTrue result ↔ (one.now ≡ other.now) }
{
    one == other
}
