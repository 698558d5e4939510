//! The texts of the explanations of a plan: for each fault of its text, of a cell and of the tables its cause and its fix. `scripts/faults` prints the
//! list of all faults from them.

use crate::system_texts::memory;
use faults::{CellCause, Fault, PlanCause, PlanFault, RoleKey};

/// The cause of an error, and how to fix it, each in whole sentences.
#[derive(Clone, Copy)]
pub struct Explanation {
    pub cause: &'static str,
    pub fix: &'static str,
}

impl Explanation {
    /// A cause and its fix.
    pub fn new(cause: &'static str, fix: &'static str) -> Explanation {
        Explanation { cause, fix }
    }
}

/// The part of a plan that a fault is located at. Each arm of a `match` over them begins with the part that has the fault; those after it do not occur.
#[derive(Clone, Copy)]
pub enum Level {
    Plan,
    Field,
    Table,
    Column,
    Rule,
    Cell,
}

/// The part of the plan that the numbers of a fault name. A role counts as a field.
pub fn level_of(fault: &PlanFault) -> Level {
    match (fault.table, fault.rule, fault.column) {
        (0, _, 0) => Level::Plan,
        (0, _, _) => Level::Field,
        (_, 0, 0) => Level::Table,
        (_, 0, _) => Level::Column,
        (_, _, 0) => Level::Rule,
        _ => Level::Cell,
    }
}

/// The explanation of a plan's fault.
pub fn plan_explanation(fault: &PlanFault) -> Explanation {
    let level = level_of(fault);
    let role = RoleKey::with_number(fault.column);
    match fault.cause {
        PlanCause::Toml => Explanation::new(
            "The plan is not a TOML document in UTF-8.",
            "Correct the line; a table may have each key only once.",
        ),
        PlanCause::Missing => missing_key_explanation(level),
        PlanCause::Unknown => unknown_name_explanation(level),
        PlanCause::Duplicate => Explanation::new(
            "The name is already in use: by another field or output, by a built-in name, or by a word of cells.",
            "Choose another name.",
        ),
        PlanCause::Kind => kind_explanation(level),
        PlanCause::Hit => Explanation::new(
            "The hit policy is unknown, or it does not fit the outputs of the table.",
            "Use `U`, `A`, `P`, `F`, `O`, `R`, `C`, `C+`, `C<`, `C>` or `C#`. The last four take one output, and `C+`, `C<` and `C>` take an output of numbers.",
        ),
        PlanCause::Priority => priority_explanation(level),
        PlanCause::Role => role_explanation(role),
        PlanCause::Money => money_explanation(role),
        PlanCause::Limit => limit_explanation(level),
        PlanCause::Cell(cell) => cell_explanation(cell.cause),
        PlanCause::OutOfMemory => memory(),
    }
}

// A required key that a part of a plan does not have.
fn missing_key_explanation(level: Level) -> Explanation {
    match level {
        Level::Plan => Explanation::new(
            "A plan must have the key `version`.",
            "Add `version = 1`, or version 2 or 3.",
        ),
        Level::Field => Explanation::new(
            "A field must have the keys `name` and `kind`.",
            "Add the key to the field.",
        ),
        Level::Table => Explanation::new(
            "A table must have the keys `inputs`, `outputs` and `rules`.",
            "Add the key to the table; `rules = []` is allowed.",
        ),
        Level::Column => Explanation::new(
            "An input must have the key `name`, and an output the keys `name` and `kind`.",
            "Add the key to the input or the output.",
        ),
        Level::Rule | Level::Cell => Explanation::new(
            "A rule must have the keys `when` and `then`.",
            "Add the key to the rule.",
        ),
    }
}

// A version or an input's name that is not known.
fn unknown_name_explanation(level: Level) -> Explanation {
    match level {
        Level::Plan | Level::Field => Explanation::new(
            "The version of the plan is not supported.",
            "Set `version` to 1, 2 or 3.",
        ),
        Level::Column | Level::Table | Level::Rule | Level::Cell => Explanation::new(
            "An input must be a field, a built-in name, or a single-valued output of an earlier table.",
            "Correct the name, or move the table with that output before this one. The list of a table under `R`, `O` or `C` cannot be an input.",
        ),
    }
}

// A value of another type, form or length than the part of the plan must have.
fn kind_explanation(level: Level) -> Explanation {
    match level {
        Level::Plan => Explanation::new(
            "`version` must be an integer, `fields` and `tables` must be arrays of tables, and `roles` must be a table.",
            "Correct the type of the key.",
        ),
        Level::Field => Explanation::new(
            "A field must be a table of two strings: a name of ASCII letters, digits and `_` that does not begin with a digit, and one of the four kinds.",
            "Write the field as {name = \"age\", kind = \"number\"}.",
        ),
        Level::Table => Explanation::new(
            "`hit` of a table must be a string, `inputs`, `outputs` and `rules` must be arrays, and `inputs` and `outputs` must not be empty.",
            "Correct the type of the key, or add an input or an output.",
        ),
        Level::Column => Explanation::new(
            "An input or an output must be a table of strings, of which `priority` alone is an array: its name consists of ASCII letters, digits and `_` and does not begin with a digit, and its kind is one of the four.",
            "Write an input as {name = \"age\"} and an output as {name = \"fee\", kind = \"number\"}.",
        ),
        Level::Rule => Explanation::new(
            "A rule must have in `when` one cell for each input, and in `then` one literal for each output.",
            "Add or remove cells or literals; `-` is the cell for any value.",
        ),
        Level::Cell => Explanation::new(
            "Cells and literals must be strings.",
            "Put quotes round the cell or the literal, also round a number.",
        ),
    }
}

// A priority list that is missing or wrong.
fn priority_explanation(level: Level) -> Explanation {
    match level {
        Level::Table | Level::Plan | Level::Field => Explanation::new(
            "A table under `P` or `O` must have a `priority` list at one of its outputs.",
            "Add `priority` to an output, with the highest value first.",
        ),
        Level::Column => Explanation::new(
            "The `priority` list has a value twice.",
            "Remove the second one.",
        ),
        Level::Cell | Level::Rule => Explanation::new(
            "The literal is not in the `priority` list of its output.",
            "Correct the literal, or add it to the list.",
        ),
    }
}

// A role that is missing, or that has the wrong kind of value.
fn role_explanation(role: Option<RoleKey>) -> Explanation {
    match role {
        Some(RoleKey::Cover) => Explanation::new(
            "The role `cover` must be \"true\", \"false\", or the name of a flag with a single value.",
            "Correct the role, or add it.",
        ),
        Some(RoleKey::Remarks) => Explanation::new(
            "The role `remarks` must be the name of a text output of a table under `R`, `O` or `C`.",
            "Correct the role, or remove it.",
        ),
        Some(RoleKey::Fee)
        | Some(RoleKey::Deductible)
        | Some(RoleKey::Copay)
        | Some(RoleKey::Rate)
        | Some(RoleKey::OopMax)
        | Some(RoleKey::FamilyDeductible)
        | Some(RoleKey::FamilyOopMax)
        | None => Explanation::new(
            "The role must be a number, or the name of a number with a single value.",
            "Correct the role, or add it. Each role but `remarks` is required; the two of the family are required under version 3.",
        ),
    }
}

/// The explanation of a literal of a role that is out of the role's range.
pub fn money_explanation(role: Option<RoleKey>) -> Explanation {
    match role {
        Some(RoleKey::Rate) => Explanation::new(
            "The role `rate` must be from 0 to 1.",
            "Write the member's share as a fraction: 0.2 for 20 %.",
        ),
        Some(RoleKey::Cover)
        | Some(RoleKey::Fee)
        | Some(RoleKey::Deductible)
        | Some(RoleKey::Copay)
        | Some(RoleKey::OopMax)
        | Some(RoleKey::Remarks)
        | Some(RoleKey::FamilyDeductible)
        | Some(RoleKey::FamilyOopMax)
        | None => Explanation::new(
            "An amount of money must not be negative, and must not have a fraction of a cent.",
            "Correct the amount: 50 or 49.95, for example.",
        ),
    }
}

// A text, a name or an array over its limit.
fn limit_explanation(level: Level) -> Explanation {
    match level {
        Level::Plan => Explanation::new(
            "The plan is larger than 1,048,576 bytes.",
            "Shorten the plan.",
        ),
        Level::Field => Explanation::new(
            "A field's name must not be longer than 64 bytes, and a plan must not have more than 32 fields.",
            "Shorten the name, or remove fields.",
        ),
        Level::Table => Explanation::new(
            "A plan must not have more than 32 tables.",
            "Combine tables, or remove some.",
        ),
        Level::Column => Explanation::new(
            "A name must not be longer than 64 bytes. A table must not have more than 16 inputs or 16 outputs, nor a `priority` list more than 64 values.",
            "Shorten the name or the list, or split the table.",
        ),
        Level::Rule | Level::Cell => Explanation::new(
            "A table must not have more than 256 rules.",
            "Split the table.",
        ),
    }
}

/// The explanation of a cell or a literal that cannot be read. Its fix is a general one; `cell_rows.rt` has those for particular mistakes.
pub fn cell_explanation(cause: CellCause) -> Explanation {
    match cause {
        CellCause::Token => Explanation::new(
            "The text has a character or a word that is not allowed at this byte, or it ends too early.",
            "Correct the text at the mark.",
        ),
        CellCause::Literal => Explanation::new(
            "The number has more than four significant decimals or is out of range, or the text is longer than 256 bytes.",
            "Round the number to four decimals, or shorten the text.",
        ),
        CellCause::WrongKind => Explanation::new(
            "The literal has another kind than the column, or a column of texts or flags has a comparison or an interval.",
            "Write a literal of the column's kind.",
        ),
        CellCause::BadEscape => Explanation::new(
            "A backslash in a text must be followed by `\"` or by another backslash.",
            "Write two backslashes for one.",
        ),
        CellCause::BadDate => Explanation::new(
            "The date does not have the form YYYY-MM-DD, or the calendar has no such day.",
            "Write a day of the calendar with four, two and two digits.",
        ),
        CellCause::TooMany => Explanation::new(
            "The cell has more than 64 tests.",
            "Divide the tests among several rules.",
        ),
        CellCause::Trailing => Explanation::new(
            "The cell or the literal is complete before the end of the text.",
            "Remove the text from the mark on.",
        ),
        CellCause::OutOfMemory => memory(),
    }
}

/// The explanation of a fault of the tables.
pub fn tables_explanation(fault: &Fault) -> Explanation {
    match fault {
        Fault::Outside { .. } => Explanation::new(
            "The value of the input is not one of its allowed values (`values`).",
            "Give an allowed value, or add this one to `values`.",
        ),
        Fault::NoRule { .. } => Explanation::new(
            "No rule of the table matches, and an output of it has no default.",
            "Add a rule for these values, or a default for each output.",
        ),
        Fault::Clash { .. } => Explanation::new(
            "The matching rules violate the hit policy of the table: two or more match under `U`, or their outputs differ under `A`.",
            "Make the rules disjoint, or choose another hit policy.",
        ),
        Fault::Range { .. } => Explanation::new(
            "The number that the table makes of its matching rules is out of range.",
            "Bring the outputs of the rules nearer to zero.",
        ),
        Fault::OutOfMemory => memory(),
    }
}
