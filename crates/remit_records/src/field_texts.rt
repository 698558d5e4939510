//! The texts of the remittance's fields.
ghost use Rattle.std.specs.Prelude.{◌≡◌, ℕ, codes, pos, string_bytes, IfNone, IfOk, IfSome, OnOk};
ghost use Rattle.fixpoint.specs.Money.{money_text};
ghost use Rattle.faults.specs.ReasonText.{numbered, reason_text};
ghost use Rattle.remit_records.specs.FieldTexts.{cause_text, fault_text, remarks_text};

use intake_csv::{RowCause, RowFault};
use settlement::{Reason, Remarks};
use std::alloc::{AllocError, Global};

/// Returns the reason why a claim is pended, for example `norule:1`.
pub fn reason_text(alloc: Global, reason: Reason) -> Result<String, AllocError>
    ensures { IfOk result (λ text. string_bytes text ≡ reason_text reason) }
{
    let word = reason.word();
    let place = reason.place();
    match reason.column() {
        Some(column) => format!(in alloc; "{word}:{place}:{column}"),
        None => format!(in alloc; "{word}:{place}"),
    }
}

/// Returns the reason why a record is refused, for example `value:3`. A wrong number of fields is
/// in no column, and its reason is `fieldcount`.
pub fn fault_text(alloc: Global, fault: RowFault) -> Result<String, AllocError>
    ensures { IfOk result (λ text. string_bytes text ≡ fault_text fault) }
{
    let column = fault.column;
    match word_of(fault.cause) {
        Some(word) => format!(in alloc; "{word}:{column}"),
        None => String::from_str(alloc, "fieldcount"),
    }
}

// Returns the word of a cause that applies to a column.
fn word_of(cause: RowCause) -> Option<&'static str>
    ensures word { IfSome result (λ word.
        (column : ℕ) → cause_text cause column ≡ numbered word.now column) }
    ensures none { IfNone result ((column : ℕ) → cause_text cause column ≡ codes "fieldcount") }
{
    match cause {
        RowCause::FieldCount => None,
        RowCause::Utf8 => Some("utf8"),
        RowCause::TooLong => Some("toolong"),
        RowCause::EmptyId => Some("emptyid"),
        RowCause::Value => Some("value"),
        RowCause::NotCents => Some("notcents"),
        RowCause::Negative => Some("negative"),
        RowCause::Repeated => Some("repeated"),
        RowCause::Sum => Some("sum"),
    }
}

/// Replaces the text by the remarks, which are unchanged and separated by semicolons.
pub fn join_remarks(text: &mut Vec<u8>, remarks: &Remarks) -> Result<(), AllocError>
    ensures { OnOk result (text.new.items ≡ remarks_text remarks.now) }
{
    text.clear();
    remarks.append_joined(text, ";")
}

/// Returns the text of a sum of money, in units, with two decimals. A sum may be beyond the range
/// of numbers.
pub fn sum_text(alloc: Global, units: u128) -> Result<String, AllocError>
    ensures { IfOk result (λ text. string_bytes text ≡ money_text (pos units)) }
{
    let whole = units / 10_000;
    let cents = units % 10_000 / 100;
    format!(in alloc; "{whole}.{}{}", cents / 10, cents % 10)
}
