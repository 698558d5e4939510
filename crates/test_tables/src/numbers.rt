//! Worked values, and two facts about an `Out` that no clause states: it succeeds if its writer
//! does, and it makes one write for each piece.
use crate::ending::expects;
use fixpoint::{
    Failed, Fixed, NumFault, ShortWrite, money_text_denotes, products_are_rounded,
    shortest_text_denotes, text_denotes_at_most_one,
};
use std::alloc::Global;
use std::fmt::Display;
use std::process::Abort;

mod writers;

fn number(rt: &impl Abort, text: &str) -> Fixed {
    Fixed::parse(text.as_bytes()).expect(rt, "a number")
}

// Requires that the text denotes the number with these units, and that its shortest text is
// `shortest`.
fn reads(rt: &impl Abort, text: &str, units: i64, shortest: &str) {
    let number = number(rt, text);
    let mut buffer = [0; 24];
    let length = number.write_into(&mut buffer);
    expects(rt, number.units() == units, text);
    let same = &buffer[..length] == shortest.as_bytes();
    expects(rt, same, shortest);
}

#[test]
fn reads_and_writes_numbers(rt: HostRuntime) {
    reads(&rt, "1.23450", 12_345, "1.2345");
    reads(&rt, "-.5", -5_000, "-0.5");
    reads(
        &rt,
        "99999999999.9999",
        999_999_999_999_999,
        "99999999999.9999",
    );
    reads(
        &rt,
        "-99999999999.9999",
        -999_999_999_999_999,
        "-99999999999.9999",
    );
    reads(&rt, "-0", 0, "0");
    reads(&rt, "007.00000", 70_000, "7");
    reads(&rt, "10.0500", 100_500, "10.05");
    text_denotes_at_most_one();
    shortest_text_denotes();
    money_text_denotes();
}

fn refuses(rt: &impl Abort, text: &str, fault: NumFault) {
    let refused = Fixed::parse(text.as_bytes()) == Err(fault);
    expects(rt, refused, text);
}

#[test]
fn refuses_texts(rt: HostRuntime) {
    refuses(&rt, "1.23451", NumFault::TooFine);
    refuses(&rt, "100000000000", NumFault::TooLarge);
    refuses(&rt, "100000000000.00001", NumFault::TooFine);
    refuses(&rt, "12.", NumFault::NotNumber);
    refuses(&rt, "", NumFault::NotNumber);
    refuses(&rt, "-", NumFault::NotNumber);
    refuses(&rt, ".", NumFault::NotNumber);
    refuses(&rt, "+1", NumFault::NotNumber);
    refuses(&rt, "1.2.3", NumFault::NotNumber);
    refuses(&rt, " 1", NumFault::NotNumber);
}

fn rounds(rt: &impl Abort, one: &str, rate: &str, cents: &str) {
    let product = number(rt, one).mul_cents(number(rt, rate));
    expects(rt, product == Some(number(rt, cents)), cents);
}

fn leaves_the_range(rt: &impl Abort, one: &str, rate: &str) {
    let product = number(rt, one).mul_cents(number(rt, rate));
    expects(rt, product.is_none(), "no product");
}

#[test]
fn rounds_products_to_cents(rt: HostRuntime) {
    rounds(&rt, "10.05", "0.5", "5.02");
    rounds(&rt, "10.15", "0.5", "5.08");
    rounds(&rt, "-10.15", "0.5", "-5.08");
    rounds(&rt, "0.01", "0.4999", "0.00");
    rounds(&rt, "0.01", "0.5001", "0.01");
    rounds(&rt, "99999999999.99", "1", "99999999999.99");
    leaves_the_range(&rt, "99999999999.9999", "99999999999.9999");
    leaves_the_range(&rt, "99999999999.9999", "1");
    products_are_rounded();
}

fn says(rt: &impl Abort, alloc: Global, shown: &impl Display, message: &str) {
    let text = format!(in alloc; "{shown}").expect(rt, "memory for a message");
    expects(rt, text.as_str() == message, message);
}

#[test]
fn says_what_is_wrong(rt: HostRuntime) {
    let alloc = rt.alloc();
    says(&rt, alloc, &NumFault::NotNumber, "not a number");
    says(&rt, alloc, &NumFault::TooFine, "more than four decimals");
    says(&rt, alloc, &NumFault::TooLarge, "beyond 99999999999.9999");
    says(&rt, alloc, &Failed, "the writer takes no more bytes");
    says(
        &rt,
        alloc,
        &ShortWrite { written: 3 },
        "the writer takes no more after 3 bytes",
    );
}
