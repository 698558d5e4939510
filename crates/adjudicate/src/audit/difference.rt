//! The first record in which a remittance differs from the one that is expected.
ghost use Rattle.std.specs.Prelude.{◌≡◌, ◌≢◌, ◌==◌, ◌&&◌, not, IfSome, MatchOption};
ghost use Rattle.adjudicate.specs.Differing.{IsFirstDifference};
ghost use Rattle.adjudicate.specs.RecordEnds.{IsFirstRecord, line_feed, quoted_by, records_in};

/// Where two remittances differ first. The records before it are equal, so that it begins at the same
/// place of both.
#[derive(Clone, Copy)]
pub struct Difference {
    /// The number of the record, from 0, which is the header.
    pub number: usize,
    /// The number of bytes before the record.
    pub start: usize,
    /// The number of bytes of the record in the given remittance, with its line end; 0 if there is no
    /// such record.
    pub found_bytes: usize,
    /// The number of bytes of the record as it is expected, with its line end; 0 if there is no such
    /// record.
    pub expected_bytes: usize,
}

/// Compares a remittance with the one that is due, record by record. Returns the first record that
/// differs, and `None` if the bytes are equal.
pub fn first_difference(given: &[u8], due: &[u8]) -> Option<Difference>
    ensures same { MatchOption result (given.now ≡ due.now) (λ _. given.now ≢ due.now) }
    ensures first { IfSome result (IsFirstDifference given.now due.now) }
{
    if given == due {
        return None;
    }
    Some(differing_record(given, due))
}

// Returns the first record in which two different texts differ.
fn differing_record(given: &[u8], due: &[u8]) -> Difference
    requires { given.now ≢ due.now }
    ensures { IsFirstDifference given.now due.now result }
{
    let mut number = 0;
    let mut start = 0;
    'records: loop {
        let given_rest = &given[start..];
        let due_rest = &due[start..];
        let found_bytes = first_record(given_rest);
        let expected_bytes = first_record(due_rest);
        let found = &given_rest[..found_bytes];
        let expected = &due_rest[..expected_bytes];
        if found != expected {
            return Difference {
                number,
                start,
                found_bytes,
                expected_bytes,
            };
        }
        number += 1;
        start += found_bytes;
    }
}

/// Returns the number of whole records of a text, each of which has its line end.
pub fn record_count(text: &[u8]) -> usize
    ensures { result ≡ records_in text.now }
{
    let mut is_quoted = false;
    let mut count = 0;
    for place in 0..text.len() {
        if ends_record(is_quoted, text[place]) {
            count += 1;
        }
        is_quoted = quoted_after(is_quoted, text[place]);
    }
    count
}

// Returns the number of bytes of the first record of a text: those of a whole record, or of the whole
// text if no record ends in it.
fn first_record(text: &[u8]) -> usize
    ensures { IsFirstRecord text.now result }
{
    let mut is_quoted = false;
    for place in 0..text.len() {
        if ends_record(is_quoted, text[place]) {
            return place + 1;
        }
        is_quoted = quoted_after(is_quoted, text[place]);
    }
    text.len()
}

fn ends_record(is_quoted: bool, byte: u8) -> bool
    ensures { result ≡ ((byte == line_feed) && not is_quoted) }
{
    byte == b'\n' && !is_quoted
}

fn quoted_after(is_quoted: bool, byte: u8) -> bool
    ensures { result ≡ quoted_by is_quoted byte }
{
    if byte == b'"' { !is_quoted } else { is_quoted }
}
