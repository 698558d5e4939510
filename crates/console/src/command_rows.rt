//! The commands of the program, with their help.

ghost use Rattle.std.specs.Prelude.{◌≡◌, ◌∷◌, [], map};

use crate::names::{
    AUDIT, CHECK, CLAIM_ID, COMPARE, EXPLAIN_RECORD, FAMILY, MEMBER, NAMES, RECORD, RUN, SHOW,
    TEST, VALUE,
};
use crate::texts::{
    AUDIT_EXAMPLE, CHECK_EXAMPLE, COMPARE_EXAMPLE, EXPLAIN_EXAMPLE, NAMES_EXAMPLE, RUN_EXAMPLE,
    SHOW_EXAMPLE, STATUSES, TEST_EXAMPLE, VALUE_EXAMPLE,
};

/// A command, or the program itself.
pub struct Form {
    pub name: &'static str,
    pub about: &'static str,
    /// The help after that of the arguments.
    pub after_help: &'static str,
    /// Arguments of which exactly one is needed, if there are any.
    pub choice: &'static [&'static str],
}

/// The program.
pub fn program_form() -> &'static Form {
    PROGRAM
}

/// The commands of the program, in the order of the help.
pub fn command_forms() -> &'static [Form]
    ensures { map (λ form. form.name.now) result.now
        ≡ VALUE.now ∷ CHECK.now ∷ RUN.now ∷ AUDIT.now ∷ EXPLAIN_RECORD.now ∷ TEST.now
        ∷ COMPARE.now ∷ NAMES.now ∷ SHOW.now ∷ [] }
{
    COMMANDS
}

const PROGRAM: &Form = &Form {
    name: "adjudicate",
    about: "Adjudicate health-plan claims with DMN decision tables, by proved code",
    after_help: STATUSES,
    choice: &[],
};

const COMMANDS: &[Form] = &[
    Form {
        name: VALUE,
        about: "Evaluate the plan's decision tables for the given values, and print the outputs",
        after_help: VALUE_EXAMPLE,
        choice: &[],
    },
    Form {
        name: CHECK,
        about: "List the gaps (inputs without a rule) and the overlaps (rules that match together)",
        after_help: CHECK_EXAMPLE,
        choice: &[],
    },
    Form {
        name: RUN,
        about: "Settle the claims in the providers' files, and write the remittance",
        after_help: RUN_EXAMPLE,
        choice: &[],
    },
    Form {
        name: AUDIT,
        about: "Say whether a remittance is the one that a run in an order writes",
        after_help: AUDIT_EXAMPLE,
        choice: &[],
    },
    Form {
        name: EXPLAIN_RECORD,
        about: "Explain records of the remittance that a run in an order writes",
        after_help: EXPLAIN_EXAMPLE,
        choice: &[RECORD, CLAIM_ID, MEMBER, FAMILY],
    },
    Form {
        name: TEST,
        about: "Test the plan's tables with the rows of a file, and print the rows that differ",
        after_help: TEST_EXAMPLE,
        choice: &[],
    },
    Form {
        name: COMPARE,
        about: "List the values at which two plans differ, or the claims that they settle otherwise",
        after_help: COMPARE_EXAMPLE,
        choice: &[],
    },
    Form {
        name: NAMES,
        about: "List the plan's names with their kinds, and where they are used",
        after_help: NAMES_EXAMPLE,
        choice: &[],
    },
    Form {
        name: SHOW,
        about: "Show the plan's decision tables, for people who do not read TOML",
        after_help: SHOW_EXAMPLE,
        choice: &[],
    },
];
