//! Why the first line of a file is no header with the required columns, as far as the line shows it.

use csv::ByteRecord;
use diagnostics::{Explanation, Kind, Subject, values_of};

// Files that are no CSV files: a form of the first line, the cause and the fix.
static OTHER_FILES: [[&str; 3]; 8] = [
    [
        "pk\u{3}*",
        "The file is a workbook or an archive, and not a CSV file.",
        "Save the sheet as CSV in UTF-8.",
    ],
    [
        "*\0*",
        "The first line has a zero byte: the file is in UTF-16 or UTF-32, or is not a text.",
        "Save the file as CSV in UTF-8.",
    ],
    [
        "isaX*",
        "The file is an EDI interchange (X12), and not a CSV file.",
        "Convert the file to CSV with a header line.",
    ],
    [
        "una:*",
        "The file is an EDI interchange (EDIFACT), and not a CSV file.",
        "Convert the file to CSV with a header line.",
    ],
    [
        "unb+*",
        "The file is an EDI interchange (EDIFACT), and not a CSV file.",
        "Convert the file to CSV with a header line.",
    ],
    [
        " <*",
        "The file is an HTML or XML document, and not a CSV file.",
        "Save the table as CSV in UTF-8.",
    ],
    [
        " {*",
        "The file is a JSON document, and not a CSV file.",
        "Convert the file to CSV with a header line.",
    ],
    [
        "sep=*",
        "The first line sets a separator for spreadsheets, and is not the header.",
        "Remove the first line, and separate the fields by commas.",
    ],
];

// First lines without a comma, in the same way.
static OTHER_SEPARATORS: [[&str; 3]; 3] = [
    [
        "*;*",
        "The first line has semicolons and no comma.",
        "Separate the fields by commas.",
    ],
    [
        "*\t*",
        "The first line has tabs and no comma.",
        "Separate the fields by commas.",
    ],
    [
        "*|*",
        "The first line has vertical bars and no comma.",
        "Separate the fields by commas.",
    ],
];

/// The first line of a text, without its end.
pub fn first_line(text: &[u8]) -> &[u8] {
    let mut length = 0usize;
    for byte in text {
        if *byte == b'\n' || *byte == b'\r' {
            break;
        }
        length = length.saturating_add(1);
    }
    text.get(..length).unwrap_or(&[])
}

/// Why the first line is not the header, if it shows that.
pub fn reason_of(text: &[u8], header: &ByteRecord) -> Option<Explanation> {
    let line = first_line(text);
    match first_reason(line, &OTHER_FILES) {
        Some(reason) => Some(reason),
        None if header.len() <= 1 => first_reason(line, &OTHER_SEPARATORS),
        None if has_digit_first(header) => Some(Explanation::new(
            "A field of the first line begins with a digit, so the line may be a record.",
            "Add the header line before the first record.",
        )),
        None => None,
    }
}

fn first_reason(line: &[u8], rows: &[[&'static str; 3]]) -> Option<Explanation> {
    let subject = Subject {
        text: line,
        kind: Kind::Text,
        fault: 0,
    };
    for row in rows {
        if values_of(subject, row[0]).is_some() {
            return Some(Explanation::new(row[1], row[2]));
        }
    }
    None
}

// Column names of a plan cannot begin with a digit, and days and amounts do.
fn has_digit_first(header: &ByteRecord) -> bool {
    for place in 0..header.len() {
        if let Some([first, ..]) = header.get(place)
            && first.is_ascii_digit()
        {
            return true;
        }
    }
    false
}
