//! Finds quoted fields that are never closed, and records that run over several lines.

ghost use Rattle.std.specs.Prelude.{◌≡◌, ◌≢◌, ◌⊎◌, ◌↔◌, ◌<◌, ◌≤◌, ◌+◌, ℕ, length, false, true, unwrap_or, None, Some, IfNone, IfSome, IsTrue};
ghost use Rattle.csv.specs.Machine.{step};
ghost use Rattle.csv.specs.Reading.{default_config};
ghost use Rattle.csv.specs.declared.parser.State.{State};
ghost use Rattle.csv.specs.declared.parser.State.TheVariants.{InQuoted, StartRecord};
ghost use Rattle.remarks.specs.Quotes.{BreaksField, EndsLine, IsFirstBroken, IsOpenAt, byte_at, quote, state_after};
ghost use Rattle.remarks.specs.Scans.{IsScanned, is_in_quotes, place_after, place_of};

use memchr::memchr;

/// The place of a reader in a record.
#[derive(Clone, Copy, PartialEq, Eq)]
enum Place {
    /// A field begins here.
    FieldStart,
    /// The field has no quote at its start.
    Unquoted,
    /// The field is quoted.
    Quoted,
    /// The byte before is a quote in a quoted field, which it closes unless another quote follows.
    AfterQuote,
}

impl Place {
    fn after(self, byte: u8) -> Place
        ensures steps { (state : State) → place_of state ≡ Some self
            → place_of (step default_config state byte).0 ≡ Some result }
        ensures entered { is_in_quotes result ≡ true
            → (is_in_quotes self ≡ true) ⊎ ((byte ≡ quote) × (self ≡ Place.FieldStart)) }
    {
        if byte == b'"' {
            return self.after_quote();
        }
        if self == Place::Quoted {
            return Place::Quoted;
        }
        if byte == b',' || is_line_end(byte) {
            return Place::FieldStart;
        }
        Place::Unquoted
    }

    // Whether the place is after the opening quote of a field, and not after its end.
    fn is_in_quotes(self) -> bool
        ensures { result ≡ is_in_quotes self }
    {
        match self {
            Place::FieldStart => false,
            Place::Unquoted => false,
            Place::Quoted => true,
            Place::AfterQuote => true,
        }
    }

    fn after_quote(self) -> Place
        ensures steps { (state : State) → place_of state ≡ Some self
            → place_of (step default_config state quote).0 ≡ Some result }
        ensures entered { is_in_quotes result ≡ true
            → (is_in_quotes self ≡ true) ⊎ (self ≡ Place.FieldStart) }
    {
        match self {
            Place::FieldStart => Place::Quoted,
            Place::Unquoted => Place::Unquoted,
            Place::Quoted => Place::AfterQuote,
            Place::AfterQuote => Place::Quoted,
        }
    }

    // Whether the byte opens a quoted field here.
    fn opens(self, byte: u8) -> bool
        ensures { IsTrue result ↔ ((byte ≡ quote) × (self ≡ Place.FieldStart)) }
    {
        byte == b'"' && self == Place::FieldStart
    }

    // Whether the byte is a line end within a quoted field here.
    fn breaks(self, byte: u8) -> bool
        ensures { IsTrue result ↔ (EndsLine byte × (self ≡ Place.Quoted)) }
    {
        is_line_end(byte) && self == Place::Quoted
    }
}

// The place after a byte that is no quote, where no quoted field is open.
fn place_after(byte: u8) -> Place
    ensures { result ≡ place_after byte }
{
    if byte == b',' || is_line_end(byte) {
        Place::FieldStart
    } else {
        Place::Unquoted
    }
}

// Whether a record with a line end in a field goes on after these bytes, where no quoted field is open.
fn stays_long(is_long: bool, bytes: &[u8]) -> bool {
    is_long && !bytes.iter().any(|byte| is_line_end(*byte))
}

// The index of the first quote from this byte on, or the length of the text.
fn next_quote(text: &[u8], from: usize) -> usize
    requires { from ≤ length text.now }
    ensures least { from ≤ result }
    ensures most { result ≤ length text.now }
    ensures none { (at : ℕ) → from ≤ at → at < result → byte_at text.now at ≢ quote }
{
    match memchr(b'"', &text[from..]) {
        Some(passed) => from + passed,
        None => text.len(),
    }
}

fn is_line_end(byte: u8) -> bool
    ensures { IsTrue result ↔ EndsLine byte }
{
    byte == b'\n' || byte == b'\r'
}

/// What a text shows of its quoted fields.
#[derive(Clone, Copy)]
pub struct Quotes {
    /// The offset of the quote that opens the field in which the text ends, if it ends within a quoted field.
    pub unclosed: Option<usize>,
    /// The number of records with a line end in a field.
    pub long: usize,
    /// The offset of the quote that opens the first field with a line end, if there is one.
    pub first_long: Option<usize>,
}

/// Finds the quoted fields of a text without a byte order mark that are never closed, or that have line ends.
pub fn quotes_of(text: &[u8]) -> Quotes
    ensures unclosed { IfSome result.unclosed (IsOpenAt text.now) }
    ensures closed { IfNone result.unclosed (state_after StartRecord text.now ≢ InQuoted) }
    ensures broken { IfSome result.first_long (IsFirstBroken text.now) }
    ensures unbroken { IfNone result.first_long ((at : ℕ) → ¬ BreaksField text.now at) }
{
    let scan = scan_of(text);
    Quotes {
        unclosed: scan.unclosed_quote(),
        long: scan.long,
        first_long: scan.first_long,
    }
}

// Searches the whole text.
fn scan_of(text: &[u8]) -> Scan
    ensures { IsScanned text.now (length text.now) result }
{
    let mut scan = Scan {
        place: Place::FieldStart,
        opened: 0,
        is_long: false,
        long: 0,
        first_long: None,
    };
    let mut at = 0;
    'bytes: while at < text.len() {
        at = scan.read_on(text, at);
    }
    scan
}

/// A search in a text.
#[derive(Drop)]
struct Scan {
    place: Place,
    /// The offset of the last quote that opens a field.
    opened: usize,
    /// Whether the record has a line end in a field.
    is_long: bool,
    long: usize,
    first_long: Option<usize>,
}

impl Scan {
    // Reads on from this byte, past all bytes before the next quote where no quoted field is open. Returns the index after the
    // bytes read.
    fn read_on(&mut self, text: &[u8], at: usize) -> usize
        requires within { at < length text.now }
        requires scanned { IsScanned text.now at self.old }
        ensures on { at < result }
        ensures within { result ≤ length text.now }
        ensures scanned { IsScanned text.now result self.new }
    {
        if !self.place.is_in_quotes() {
            let end = next_quote(text, at);
            if at < end {
                self.pass(text, at, end);
                return end;
            }
        }
        self.read(text, at);
        at + 1
    }

    // Passes bytes without a quote where no quoted field is open.
    fn pass(&mut self, text: &[u8], from: usize, end: usize)
        requires some { from < end }
        requires within { end ≤ length text.now }
        requires none { (at : ℕ) → from ≤ at → at < end → byte_at text.now at ≢ quote }
        requires outside { is_in_quotes self.old.place ≡ false }
        requires scanned { IsScanned text.now from self.old }
        ensures { IsScanned text.now end self.new }
    {
        self.place = place_after(text[end - 1]);
        self.is_long = stays_long(self.is_long, &text[from..end]);
    }

    fn read(&mut self, text: &[u8], at: usize)
        requires within { at < length text.now }
        requires scanned { IsScanned text.now at self.old }
        ensures { IsScanned text.now (at + 1) self.new }
    {
        let byte = text[at];
        let place = self.place;
        self.place = place.after(byte);
        if place.opens(byte) {
            self.opened = at;
        } else if place.breaks(byte) {
            self.break_record();
        } else if is_line_end(byte) {
            self.is_long = false;
        }
    }

    fn break_record(&mut self)
        ensures place { self.new.place ≡ self.old.place }
        ensures opened { self.new.opened ≡ self.old.opened }
        ensures first { self.new.first_long
            ≡ Some (unwrap_or self.old.first_long self.old.opened) }
    {
        if !self.is_long {
            self.is_long = true;
            self.long = self.long.saturating_add(1);
        }
        if self.first_long.is_none() {
            self.first_long = Some(self.opened);
        }
    }

    fn unclosed_quote(&self) -> Option<usize>
        ensures quoted { self.now.place ≡ Place.Quoted → result ≡ Some self.now.opened }
        ensures others { self.now.place ≢ Place.Quoted → result ≡ None }
    {
        match self.place {
            Place::Quoted => Some(self.opened),
            Place::FieldStart => None,
            Place::Unquoted => None,
            Place::AfterQuote => None,
        }
    }
}
