//! The search for the region that contains a value.
ghost use Rattle.std.specs.Prelude.{◌≡◌, List, IfSome, IsTrue};
ghost use Rattle.std.specs.Cmp.Lexicographic.{slice_cmp};
ghost use Rattle.std.specs.List.{list_any};
ghost use Rattle.std.specs.Ordering.{nat_cmp};
ghost use Rattle.feel_tests.specs.Holds.{is_equal};
ghost use Rattle.feel_tests.specs.declared.value.Value.{Value};
ghost use Rattle.feel_tests.specs.declared.value.Value.TheVariants as values;
ghost use Rattle.regions.specs.declared.region.Region.TheVariants.{Other};
ghost use Rattle.regions.specs.Regions.{is_in};
ghost use Rattle.cutplan.specs.Matching.{bytes_of, has_at, AreRisingTexts, OthersRise};

use crate::keys::key_of;
use feel_tests::{Text, Value};
use regions::{Region, is_among, is_in, is_less};
use std::cmp::Ordering;

/// The greatest number of keys that are compared one by one.
const FEW_KEYS: usize = 16;

/// Returns the index of a region that contains the value, if there is one. The keys of the regions
/// usually lead to it at once. Otherwise a binary search over the regions, which are in increasing
/// order, finds it. In both cases the region found is checked before it is returned, so no proof
/// depends on the keys or on the search.
#[inline(always)]
pub fn place_of(regions: &[Region], keys: &[u64], value: &Value) -> Option<usize>
    requires { OthersRise regions.now }
    ensures { IfSome result (λ place. IsTrue (has_at regions.now place value.now)) }
{
    let place = suggested_place(keys, value, regions.len());
    if has_at(regions, place, value) {
        Some(place)
    } else {
        place_by_search(regions, value)
    }
}

// Returns the index that the value's key suggests: that of the last key that is not greater, or, for
// a text with another key, the last of `count` indices, since a text that is not named lies in the
// last region.
#[inline(always)]
fn suggested_place(keys: &[u64], value: &Value, count: usize) -> usize {
    let key = key_of(value);
    let place = count_up_to(keys, key).saturating_sub(1);
    match value {
        Value::Text(_) if keys.get(place) != Some(&key) => count.saturating_sub(1),
        _ => place,
    }
}

// Returns the number of keys up to this one. To compare a few keys one by one takes no jump that the
// processor could predict wrongly.
#[inline(always)]
fn count_up_to(keys: &[u64], key: u64) -> usize {
    if keys.len() > FEW_KEYS {
        return keys.partition_point(|other| *other <= key);
    }
    let mut count = 0_usize;
    for other in keys {
        count = count.wrapping_add(usize::from(*other <= key));
    }
    count
}

// Returns the region that a binary search finds, for a value with a key that does not lead to its
// region.
fn place_by_search(regions: &[Region], value: &Value) -> Option<usize>
    requires { OthersRise regions.now }
    ensures { IfSome result (λ place. IsTrue (has_at regions.now place value.now)) }
{
    let place = find_place(regions, value);
    if has_at(regions, place, value) {
        Some(place)
    } else {
        None
    }
}

// Returns the index where the search ends, or the last index if it finds nothing. The caller checks
// the region there.
fn find_place(regions: &[Region], value: &Value) -> usize {
    match regions.binary_search_by(|region| order(region, value)) {
        Ok(place) => place,
        Err(_) => regions.len().saturating_sub(1),
    }
}

#[inline(always)]
fn has_at(regions: &[Region], place: usize, value: &Value) -> bool
    requires { OthersRise regions.now }
    ensures { result ≡ has_at regions.now place value.now }
{
    match regions.get(place) {
        Some(region) => has(region, value),
        None => false,
    }
}

// Returns whether the value lies in the region. In a region of other texts, a binary search
// replaces the comparison with every named text.
#[inline(always)]
fn has(region: &Region, value: &Value) -> bool
    requires { (names : List Value) → region.now ≡ Other names → AreRisingTexts names }
    ensures { result ≡ is_in region.now value.now }
{
    match region {
        Region::Other(names) => !is_one_of(names.as_slice(), value),
        _ => is_in(region, value),
    }
}

fn is_one_of(names: &[Value], value: &Value) -> bool
    requires { AreRisingTexts names.now }
    ensures { result ≡ list_any (λ name. is_equal value.now name) names.now }
{
    match value {
        Value::Text(text) => is_named(names, text),
        _ => is_among(names, value),
    }
}

fn is_named(names: &[Value], text: &Text) -> bool
    requires { AreRisingTexts names.now }
    ensures { result ≡ list_any (λ name. is_equal (values.Text text.now) name) names.now }
{
    match names.binary_search_by(|name| order_to(name, text)) {
        Ok(_) => true,
        Err(_) => false,
    }
}

fn order_to(name: &Value, text: &Text) -> Ordering
    ensures { result ≡ slice_cmp nat_cmp (bytes_of name.now) text.now }
{
    match name {
        Value::Text(name) => order_of_bytes(name.as_bytes(), text.as_bytes()),
        _ => order_of_bytes(&[], text.as_bytes()),
    }
}

// The first bytes are compared before the whole texts because they usually differ.
fn order_of_bytes(one: &[u8], other: &[u8]) -> Ordering
    ensures { result ≡ slice_cmp nat_cmp one.now other.now }
{
    match (one, other) {
        ([first, ..], [second, ..]) if first != second => first.cmp(second),
        _ => one.cmp(other),
    }
}

// Compares a region with a value: `Less` means that the region lies below the value. The region of
// other texts comes after all named texts.
fn order(region: &Region, value: &Value) -> Ordering {
    match region {
        Region::Below(cut) => or_less(is_less(value, cut)),
        Region::At(cut) => compare(cut, value),
        Region::Between(low, high) => {
            if is_less(low, value) {
                or_less(is_less(value, high))
            } else {
                Ordering::Greater
            }
        }
        Region::Above(cut) => or_less(is_less(cut, value)).reverse(),
        Region::Other(_) => Ordering::Greater,
        Region::Every => Ordering::Equal,
    }
}

fn or_less(is_in: bool) -> Ordering {
    if is_in {
        Ordering::Equal
    } else {
        Ordering::Less
    }
}

fn compare(cut: &Value, value: &Value) -> Ordering {
    match (cut, value) {
        (Value::Number(cut), Value::Number(value)) => cut.cmp(value),
        (Value::Text(cut), Value::Text(value)) => cut.as_str().cmp(value.as_str()),
        (Value::Flag(cut), Value::Flag(value)) => cut.cmp(value),
        (Value::Day(cut), Value::Day(value)) => cut.cmp(value),
        _ => Ordering::Less,
    }
}
