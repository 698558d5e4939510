//! Finds entries of a plan's tables that their role cannot take. The plan is valid, but each claim that gets such an entry is pended.

use diagnostics::{
    Advice, Message, Part, Step, add_name_in_table, items_after, money_explanation, shown_front,
    tables, text_after, text_at,
};
use faults::RoleKey;
use std::alloc::AllocError;
use toml::Value;

/// The roles that are numbers.
static NUMBERS: [RoleKey; 7] = [
    RoleKey::Fee,
    RoleKey::Deductible,
    RoleKey::Copay,
    RoleKey::Rate,
    RoleKey::OopMax,
    RoleKey::FamilyDeductible,
    RoleKey::FamilyOopMax,
];

/// An output of a table that is a role.
#[derive(Clone, Copy)]
struct RoleOutput<'d> {
    role: RoleKey,
    table: &'d Value,
    table_number: usize,
    /// Its place among the outputs, from 0.
    place: usize,
    /// Its number among the columns, from 1.
    column: usize,
}

/// Explains, for each output of a valid plan that is a role, the first entry which the role cannot take. The entries of a sum or a count are left out,
/// since they are not the value of their table.
pub fn add_role_entries(message: &mut Message, document: &Value) -> Result<(), AllocError> {
    for role in NUMBERS.as_slice() {
        let name = text_at(document, &[Step::Key("roles")], role.key());
        if let Some(output) = output_of(document, *role, name) {
            add_output(message, document, &output)?;
        }
    }
    Ok(())
}

fn output_of<'d>(document: &'d Value, role: RoleKey, name: &'d str) -> Option<RoleOutput<'d>> {
    let tables = tables(document);
    for number in 0..tables.len() {
        let table = &tables[number];
        if matches!(text_after(Some(table), "hit"), Some("C+" | "C#")) {
            continue;
        }
        if let Some(place) = place_of(items_after(Some(table), "outputs"), name) {
            let inputs = items_after(Some(table), "inputs").len();
            return Some(RoleOutput {
                role,
                table,
                table_number: number + 1,
                place,
                column: inputs.saturating_add(place).saturating_add(1),
            });
        }
    }
    None
}

fn place_of(outputs: &[Value], name: &str) -> Option<usize> {
    for place in 0..outputs.len() {
        if text_after(Some(&outputs[place]), "name") == Some(name) {
            return Some(place);
        }
    }
    None
}

// Explains the first entry that the role cannot take.
fn add_output<'d>(
    message: &mut Message,
    document: &Value,
    output: &RoleOutput<'d>,
) -> Result<(), AllocError> {
    let rules = items_after(Some(output.table), "rules");
    for number in 0..rules.len() {
        let entry = entry_of(&rules[number], output.place);
        if !can_take(output.role, entry) {
            return add_entry(message, document, output, number + 1, entry);
        }
    }
    Ok(())
}

fn entry_of(rule: &Value, place: usize) -> &str {
    match items_after(Some(rule), "then").get(place) {
        Some(entry) => entry.as_str().unwrap_or("").trim(),
        None => "",
    }
}

fn add_entry<'d>(
    message: &mut Message,
    document: &Value,
    output: &RoleOutput<'d>,
    rule: usize,
    entry: &'d str,
) -> Result<(), AllocError> {
    let cause = match output.role {
        RoleKey::Rate => {
            "{} is not a rate from 0 to 1, so a claim with this entry is pended with term:{}."
        }
        _ => {
            "{} is not an amount of 0 or more in whole cents, so a claim with this entry is pended with term:{}."
        }
    };
    let fix = money_explanation(Some(output.role)).fix;
    let number = usize::from(output.role.number());
    add_name_in_table(message, document, output.table_number, rule, output.column)?;
    let word = Part::Word(shown_front(entry));
    message.advice(&Advice::new(cause, fix, word, Part::Number(number)))
}

// Whether a number literal is a value of the role.
fn can_take(role: RoleKey, literal: &str) -> bool {
    let (is_signed, digits) = match literal.strip_prefix('-') {
        Some(rest) => (true, rest),
        None => (false, literal),
    };
    let (whole, fraction) = digits.split_once('.').unwrap_or((digits, ""));
    let whole = whole.trim_start_matches('0');
    let fraction = fraction.trim_end_matches('0');
    let is_zero = whole.is_empty() && fraction.is_empty();
    if is_signed {
        return is_zero;
    }
    match role {
        RoleKey::Rate => whole.is_empty() || (whole == "1" && fraction.is_empty()),
        _ => fraction.len() <= 2,
    }
}
