//! The arguments of the commands, with their help.

ghost use Rattle.std.specs.Prelude.{◌≡◌, ◌∷◌, [], ℕ};
ghost use Rattle.clap.specs.declared.builder.value_parser.ValueParser.TheVariants.{Unsigned};
ghost use Rattle.console.specs.Forms.{parser_in, required_in};
ghost use Rattle.console.specs.Limits.{TakesWords, cutoff_limit, least_width, width_limit};

use crate::arguments::{Argument, PLAIN, Takes};
use crate::names::{
    AS_CSV, AS_TEXT, ASSIGNMENT, BALANCES, BY_FILES, BY_SERVICE, CASES, CLAIM_ID, CLAIMS, CLOSING,
    CUTOFF, ERRORS_ONLY, EXPLAIN, FAIL, FAMILY, FILE, FORMAT, HTML, MEMBER, NARROWED, NOTES, OLD,
    OPENING, ORDER, OUTPUT, PLAN, RECORD, REMITTANCE, RENAMED, ROWS, STRICT, SUMMARY, TERMS, WHOLE,
    WIDTH, WORKERS,
};

/// The greatest value of `--cutoff`.
const CUTOFF_LIMIT: u64 = 1_000_000_000;

/// The arguments of the program itself.
pub fn line_arguments() -> &'static [Argument]
    ensures needed { required_in result.now ≡ [] }
{
    LINE_ARGUMENTS
}

const LINE_ARGUMENTS: &[Argument] = &[Argument {
    name: EXPLAIN,
    long: Some("explain"),
    help: "Explain errors (default on a terminal)",
    takes: Takes::Nothing,
    is_global: true,
    ..PLAIN
}];

/// The arguments of `value`.
pub fn value_arguments() -> &'static [Argument]
    ensures needed { required_in result.now ≡ PLAN.now ∷ [] }
{
    VALUE_ARGUMENTS
}

const VALUE_ARGUMENTS: &[Argument] = &[
    PLAN_FILE,
    Argument {
        name: ASSIGNMENT,
        help: "A value for an input of the plan, such as age=42",
        takes: Takes::Texts(0),
        ..PLAIN
    },
    Argument {
        name: ROWS,
        long: Some("rows"),
        value_names: &["FILE"],
        help: "Evaluate the rows of FILE, CSV, and print them with the outputs as further columns",
        excludes: &[ASSIGNMENT],
        ..PLAIN
    },
    OUTPUT_FILE,
];

/// The arguments of `check`.
pub fn check_arguments() -> &'static [Argument]
    ensures needed { required_in result.now ≡ PLAN.now ∷ [] }
{
    CHECK_ARGUMENTS
}

const CHECK_ARGUMENTS: &[Argument] = &[
    PLAN_FILE,
    Argument {
        name: ERRORS_ONLY,
        long: Some("harmful"),
        help: "List only gaps and overlaps that are errors under the table's hit policy",
        takes: Takes::Nothing,
        ..PLAIN
    },
    Argument {
        name: WHOLE,
        long: Some("whole"),
        help: "List the values at which claims pend, over all tables together",
        takes: Takes::Nothing,
        excludes: &[ERRORS_ONLY],
        ..PLAIN
    },
    Argument {
        name: FAIL,
        long: Some("fail"),
        help: "With --whole, exit with status 1 if a line other than `pends outside` is printed",
        takes: Takes::Nothing,
        needs: &[WHOLE],
        ..PLAIN
    },
    Argument {
        name: STRICT,
        long: Some("strict"),
        help: "Report unknown plan keys and exit with status 1",
        takes: Takes::Nothing,
        ..PLAIN
    },
    OUTPUT_FILE,
];

/// The arguments of `run`.
pub fn run_arguments() -> &'static [Argument]
    ensures needed { required_in result.now ≡ PLAN.now ∷ FILE.now ∷ [] }
    ensures cutoff { parser_in 0 CUTOFF.now result.now ≡ Unsigned 0 cutoff_limit }
    ensures order { TakesWords (BY_FILES.now ∷ BY_SERVICE.now ∷ [])
        (parser_in 0 ORDER.now result.now) }
    ensures workers { (limit : ℕ) → parser_in limit WORKERS.now result.now ≡ Unsigned 1 limit }
{
    RUN_ARGUMENTS
}

const RUN_ARGUMENTS: &[Argument] = &[
    PLAN_OPTION,
    BALANCES_FILE,
    Argument {
        name: CLOSING,
        long: Some("closing"),
        value_names: &["FILE"],
        help: "Write the balances after the last claim to FILE atomically, CSV",
        ..PLAIN
    },
    Argument {
        name: NOTES,
        long: Some("notes"),
        value_names: &["FILE"],
        help: "Write the pended and refused records to FILE atomically, as a work list, CSV",
        ..PLAIN
    },
    CUTOFF_NUMBER,
    Argument {
        help: "Accept the claims file by file, or by day of service",
        ..ORDER_WORD
    },
    Argument {
        name: WORKERS,
        long: Some("workers"),
        value_names: &["N"],
        help: "Worker threads, 1 to 64",
        takes: Takes::Workers,
        ..PLAIN
    },
    OUTPUT_FILE,
    Argument {
        name: SUMMARY,
        long: Some("summary"),
        help: "Print the number of records by status (default on a terminal)",
        takes: Takes::Nothing,
        ..PLAIN
    },
    Argument {
        name: STRICT,
        long: Some("strict"),
        help: "Refuse unknown plan keys, quotes that may hide records, and files whose records are all refused",
        takes: Takes::Nothing,
        ..PLAIN
    },
    CLAIM_FILES,
];

/// The arguments of `audit`.
pub fn audit_arguments() -> &'static [Argument]
    ensures needed { required_in result.now
        ≡ PLAN.now ∷ ORDER.now ∷ REMITTANCE.now ∷ FILE.now ∷ [] }
    ensures cutoff { parser_in 0 CUTOFF.now result.now ≡ Unsigned 0 cutoff_limit }
    ensures order { TakesWords (BY_FILES.now ∷ BY_SERVICE.now ∷ [])
        (parser_in 0 ORDER.now result.now) }
{
    AUDIT_ARGUMENTS
}

const AUDIT_ARGUMENTS: &[Argument] = &[
    PLAN_OPTION,
    BALANCES_FILE,
    CUTOFF_NUMBER,
    Argument {
        help: "The order in which the run accepted the claims",
        is_required: true,
        ..ORDER_WORD
    },
    Argument {
        name: REMITTANCE,
        long: Some("remittance"),
        help: "The remittance to audit, CSV",
        is_required: true,
        ..PLAIN
    },
    CLAIM_FILES,
];

/// The arguments of `explain`.
pub fn explain_arguments() -> &'static [Argument]
    ensures needed { required_in result.now ≡ PLAN.now ∷ FILE.now ∷ [] }
    ensures cutoff { parser_in 0 CUTOFF.now result.now ≡ Unsigned 0 cutoff_limit }
    ensures order { TakesWords (BY_FILES.now ∷ BY_SERVICE.now ∷ [])
        (parser_in 0 ORDER.now result.now) }
    ensures format { TakesWords (AS_TEXT.now ∷ AS_CSV.now ∷ [])
        (parser_in 0 FORMAT.now result.now) }
{
    EXPLAIN_ARGUMENTS
}

const EXPLAIN_ARGUMENTS: &[Argument] = &[
    PLAN_OPTION,
    BALANCES_FILE,
    CUTOFF_NUMBER,
    Argument {
        help: "The order in which the run accepted the claims; the default is `files`",
        ..ORDER_WORD
    },
    Argument {
        name: RECORD,
        long: Some("claim"),
        value_names: &["FILE:RECORD"],
        help: "Explain this record, by the first two fields of the remittance, such as 2:17",
        ..PLAIN
    },
    Argument {
        name: CLAIM_ID,
        long: Some("claim-id"),
        value_names: &["ID"],
        help: "Explain the first claim with this identifier",
        ..PLAIN
    },
    Argument {
        name: MEMBER,
        long: Some("member"),
        value_names: &["MEMBER"],
        help: "Explain all claims of this member, under plans of version 1 and 2",
        ..PLAIN
    },
    Argument {
        name: FAMILY,
        long: Some("family"),
        value_names: &["FAMILY"],
        help: "Explain all claims of this family, under plans of version 3",
        ..PLAIN
    },
    Argument {
        name: FORMAT,
        long: Some("format"),
        value_names: &["FORMAT"],
        help: "Print lines of text, which is the default, or CSV records",
        takes: Takes::Words(&[AS_TEXT, AS_CSV]),
        ..PLAIN
    },
    CLAIM_FILES,
];

/// The arguments of `test`.
pub fn test_arguments() -> &'static [Argument]
    ensures needed { required_in result.now ≡ PLAN.now ∷ CASES.now ∷ [] }
{
    TEST_ARGUMENTS
}

const TEST_ARGUMENTS: &[Argument] = &[
    PLAN_FILE,
    Argument {
        name: CASES,
        help: "The file of tests, CSV: a row for each test",
        is_required: true,
        ..PLAIN
    },
    OUTPUT_FILE,
];

/// The arguments of `compare`.
pub fn compare_arguments() -> &'static [Argument]
    ensures needed { required_in result.now ≡ OLD.now ∷ PLAN.now ∷ [] }
    ensures cutoff { parser_in 0 CUTOFF.now result.now ≡ Unsigned 0 cutoff_limit }
    ensures order { TakesWords (BY_FILES.now ∷ BY_SERVICE.now ∷ [])
        (parser_in 0 ORDER.now result.now) }
{
    COMPARE_ARGUMENTS
}

const COMPARE_ARGUMENTS: &[Argument] = &[
    Argument {
        name: OLD,
        help: "The old plan file, TOML",
        is_required: true,
        ..PLAIN
    },
    PLAN_FILE,
    Argument {
        name: RENAMED,
        long: Some("as"),
        help: "The new plan has the name NEW for the name OLD of the old one",
        takes: Takes::TextEachTime,
        ..PLAIN
    },
    Argument {
        name: NARROWED,
        long: Some("where"),
        help: "Compare the plans only at values of NAME for which CELL holds",
        takes: Takes::TextEachTime,
        ..PLAIN
    },
    Argument {
        name: TERMS,
        long: Some("terms"),
        help: "Leave remarks out",
        takes: Takes::Nothing,
        ..PLAIN
    },
    Argument {
        name: FAIL,
        long: Some("fail"),
        help: "Exit with status 1 if the plans differ",
        takes: Takes::Nothing,
        ..PLAIN
    },
    BALANCES_FILE,
    CUTOFF_NUMBER,
    Argument {
        help: "The order in which the claims of the files are accepted",
        ..ORDER_WORD
    },
    OUTPUT_FILE,
    Argument {
        name: FILE,
        help: "Compare the remittances of these claim files, CSV",
        takes: Takes::Texts(0),
        needs: &[ORDER],
        ..PLAIN
    },
];

/// The arguments of `names`.
pub fn names_arguments() -> &'static [Argument]
    ensures needed { required_in result.now ≡ PLAN.now ∷ [] }
{
    NAMES_ARGUMENTS
}

const NAMES_ARGUMENTS: &[Argument] = &[
    PLAN_FILE,
    Argument {
        name: CLAIMS,
        long: Some("claims"),
        help: "Print an empty claim file for the plan, CSV",
        takes: Takes::Nothing,
        excludes: &[OPENING],
        ..PLAIN
    },
    Argument {
        name: OPENING,
        long: Some("balances"),
        help: "Print an empty balance file for the plan, CSV",
        takes: Takes::Nothing,
        ..PLAIN
    },
    OUTPUT_FILE,
];

/// The arguments of `show`.
pub fn show_arguments() -> &'static [Argument]
    ensures needed { required_in result.now ≡ PLAN.now ∷ [] }
    ensures width { parser_in 0 WIDTH.now result.now ≡ Unsigned least_width width_limit }
{
    SHOW_ARGUMENTS
}

const SHOW_ARGUMENTS: &[Argument] = &[
    PLAN_FILE,
    Argument {
        name: HTML,
        long: Some("html"),
        help: "Print a page in HTML",
        takes: Takes::Nothing,
        ..PLAIN
    },
    Argument {
        name: OLD,
        long: Some("compare"),
        value_names: &["OLD"],
        help: "With --html, mark what differs from this plan",
        needs: &[HTML],
        ..PLAIN
    },
    Argument {
        name: WIDTH,
        long: Some("width"),
        value_names: &["N"],
        help: "Lines of at most N columns; the default is the terminal's width, or 100",
        takes: Takes::Width,
        excludes: &[HTML],
        ..PLAIN
    },
    OUTPUT_FILE,
];

const PLAN_FILE: Argument = Argument {
    name: PLAN,
    help: "The plan file, TOML",
    is_required: true,
    ..PLAIN
};

const PLAN_OPTION: Argument = Argument {
    long: Some("plan"),
    ..PLAN_FILE
};

const BALANCES_FILE: Argument = Argument {
    name: BALANCES,
    long: Some("balances"),
    help: "Opening balances of the members' accumulators, CSV",
    ..PLAIN
};

const CUTOFF_NUMBER: Argument = Argument {
    name: CUTOFF,
    long: Some("cutoff"),
    value_names: &["N"],
    help: "Accept at most N claims; the others are reported as `late`",
    takes: Takes::Number(0, CUTOFF_LIMIT),
    ..PLAIN
};

const ORDER_WORD: Argument = Argument {
    name: ORDER,
    long: Some("order"),
    value_names: &["ORDER"],
    takes: Takes::Words(&[BY_FILES, BY_SERVICE]),
    ..PLAIN
};

const OUTPUT_FILE: Argument = Argument {
    name: OUTPUT,
    long: Some("output"),
    value_names: &["FILE"],
    help: "Write the results to FILE atomically",
    ..PLAIN
};

const CLAIM_FILES: Argument = Argument {
    name: FILE,
    help: "The providers' claim files, CSV",
    takes: Takes::Texts(1),
    is_required: true,
    ..PLAIN
};
