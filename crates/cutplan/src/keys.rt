//! Integer keys of a column's regions, for a fast search.
//!
//! The keys only suggest a region. The suggestion is checked before it is used, so no contract
//! mentions the keys.

use feel_tests::{Text, Value};
use regions::Region;
use std::alloc::{AllocError, Global};
use tables::Sequence;

/// Returns the keys of a column, one for each of its regions that has a first value. The region of
/// all other texts has none and is last, so a key has the index of its region.
pub fn keys_of_regions(alloc: Global, regions: &[Region]) -> Result<Sequence<u64>, AllocError> {
    let mut keys = Sequence::new(alloc);
    for region in regions {
        if let Some(key) = first_key(region) {
            keys.push(key)?;
        }
    }
    Ok(keys)
}

// Returns the key of the region's first value, or nothing for a region of other texts or of all
// values.
fn first_key(region: &Region) -> Option<u64> {
    match region {
        Region::Below(_) => Some(0),
        Region::At(cut) => Some(key_of(cut)),
        Region::Between(cut, _) => Some(key_of(cut).saturating_add(1)),
        Region::Above(cut) => Some(key_of(cut).saturating_add(1)),
        Region::Other(_) => None,
        Region::Every => None,
    }
}

/// Returns the key of the value. The keys of two values of one kind are in the order of the values,
/// but different values may have equal keys.
pub fn key_of(value: &Value) -> u64 {
    match value {
        Value::Number(number) => key_of_integer(number.units()),
        Value::Day(day) => key_of_integer(i64::from(day.epoch_day())),
        Value::Text(text) => key_of_text(text),
        Value::Flag(flag) => u64::from(*flag),
    }
}

// Returns the distance of the integer from the least one.
fn key_of_integer(integer: i64) -> u64 {
    integer.abs_diff(i64::MIN)
}

// Returns the first eight bytes of the text as a big-endian number. A shorter text is padded with
// zeros at its end.
fn key_of_text(text: &Text) -> u64 {
    match text.as_bytes() {
        [
            first,
            second,
            third,
            fourth,
            fifth,
            sixth,
            seventh,
            eighth,
            ..
        ] => u64::from_be_bytes([
            *first, *second, *third, *fourth, *fifth, *sixth, *seventh, *eighth,
        ]),
        short => key_of_short(short),
    }
}

// The text has fewer than eight bytes.
fn key_of_short(bytes: &[u8]) -> u64 {
    let mut key: u64 = 0;
    let mut left: u32 = u64::BITS;
    for byte in bytes {
        left = left.saturating_sub(u8::BITS);
        key |= u64::from(*byte).wrapping_shl(left);
    }
    key
}
