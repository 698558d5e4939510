//! A journal as a short text, so that a test can give the expected journal on one line.

use claim_gate::Event;

// The number of bytes for an event.
const WORD_BYTES: usize = 3;

type Word = [u8; WORD_BYTES];

// The text of an event: a letter, and then the provider and place, or the position, as digits,
// padded with blanks. In the tests these numbers are below 10.
fn word_of(event: &Event) -> Word {
    match event {
        Event::Accept { provider, place } => [b'A', digit(*provider), digit(*place)],
        Event::End { provider } => [b'E', digit(*provider), b' '],
        Event::Take { position } => [b'T', digit(*position), b' '],
        Event::Decide { position, .. } => [b'D', digit(*position), b' '],
        Event::Close => [b'C', b' ', b' '],
    }
}

fn digit(number: usize) -> u8 {
    match u8::try_from(number) {
        Ok(number) if number < 10 => b'0' + number,
        _ => b'?',
    }
}

// Returns whether a journal has exactly these events.
pub fn is_journal(journal: &[Event], words: &[u8]) -> bool {
    let mut rest = words;
    for event in journal {
        if !rest.starts_with(&word_of(event)) {
            return false;
        }
        rest = rest.get(WORD_BYTES..).unwrap_or(&[]);
    }
    rest.is_empty()
}
