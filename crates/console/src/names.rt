//! The names of the commands, and the names under which `clap` keeps the values of their arguments.

/// The command that evaluates tables.
pub const VALUE: &str = "value";

/// The command that lists gaps and overlaps.
pub const CHECK: &str = "check";

/// The command that settles claims.
pub const RUN: &str = "run";

/// The command that compares a remittance with the one that a run in an order writes.
pub const AUDIT: &str = "audit";

/// The command that explains a record of the remittance.
pub const EXPLAIN_RECORD: &str = "explain";

/// The command that tests a plan with the rows of a file.
pub const TEST: &str = "test";

/// The command that compares two plans.
pub const COMPARE: &str = "compare";

/// The command that lists the names of a plan.
pub const NAMES: &str = "names";

/// The command that shows the tables of a plan.
pub const SHOW: &str = "show";

/// The plan file of each command.
pub const PLAN: &str = "PLAN";

/// The values of the plan's inputs.
pub const ASSIGNMENT: &str = "NAME=LITERAL";

/// The file of opening balances.
pub const BALANCES: &str = "BALANCES";

/// The file for the closing balances.
pub const CLOSING: &str = "CLOSING";

/// The greatest number of claims that a run accepts.
pub const CUTOFF: &str = "CUTOFF";

/// The order in which claims are accepted.
pub const ORDER: &str = "ORDER";

/// The word for the order of the files.
pub const BY_FILES: &str = "files";

/// The word for the order by day of service.
pub const BY_SERVICE: &str = "service";

/// The remittance that is audited.
pub const REMITTANCE: &str = "REMITTANCE";

/// The file of tests.
pub const CASES: &str = "CASES";

/// The file whose rows are evaluated.
pub const ROWS: &str = "ROWS";

/// The plan that another one is compared with.
pub const OLD: &str = "OLD";

/// A name of the old plan, and the name that the new plan has for it.
pub const RENAMED: &str = "OLD=NEW";

/// A name, and the cell that its values meet.
pub const NARROWED: &str = "NAME=CELL";

/// The flag that leaves remarks out of a comparison.
pub const TERMS: &str = "TERMS";

/// The flag for an empty claim file.
pub const CLAIMS: &str = "CLAIMS";

/// The flag for an empty balance file.
pub const OPENING: &str = "OPENING";

/// The flag for a page in HTML.
pub const HTML: &str = "HTML";

/// The width of lines.
pub const WIDTH: &str = "WIDTH";

/// The file for the notes on records that need a person.
pub const NOTES: &str = "NOTES";

/// The file and the number of the record that is explained.
pub const RECORD: &str = "RECORD";

/// The identifier of the claim that is explained.
pub const CLAIM_ID: &str = "CLAIM_ID";

/// The member whose claims are explained.
pub const MEMBER: &str = "MEMBER";

/// The family whose claims are explained.
pub const FAMILY: &str = "FAMILY";

/// The arguments that say what is explained.
pub const EXPLAINED: &str = "EXPLAINED";

/// The format of an explanation.
pub const FORMAT: &str = "FORMAT";

/// The word for lines of text.
pub const AS_TEXT: &str = "text";

/// The word for CSV records.
pub const AS_CSV: &str = "csv";

/// The number of worker threads.
pub const WORKERS: &str = "WORKERS";

/// The providers' claim files.
pub const FILE: &str = "FILE";

/// The file for the results.
pub const OUTPUT: &str = "OUTPUT";

/// The flag for explanations of errors.
pub const EXPLAIN: &str = "EXPLAIN";

/// The flag that makes unknown plan keys an error.
pub const STRICT: &str = "STRICT";

/// The flag that limits a check to violations of a hit policy.
pub const ERRORS_ONLY: &str = "HARMFUL";

/// The flag for the check of all tables of a plan together.
pub const WHOLE: &str = "WHOLE";

/// The flag that makes what a check reports an error.
pub const FAIL: &str = "FAIL";

/// The flag for a summary after a run.
pub const SUMMARY: &str = "SUMMARY";

/// The file name that means standard input or standard output.
pub const STREAM: &str = "-";
