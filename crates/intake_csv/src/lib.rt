//! Claims and opening balances from CSV files (RFC 4180, as `csv` reads it).
//!
//! `ClaimFile` is a provider's file with a validated header. `Rows` reads its records one after
//! another and returns each as a claim, or as the first fault of the record. `read_balances` reads
//! the file of opening balances, and `Balances::of` returns the opening accumulators of an account.
//! The records come from `csv`, values from `feel_tests`, and claims and accumulators from
//! `settlement`.
//!
//! Begin with `specs/Records.antt` and `specs/Columns.antt`, which define a file, and go on with
//! `specs/Fields.antt`, `specs/Rows.antt` and `specs/Balances.antt`, which define its records. Then
//! read `rows.rt`, `balances.rt` and `family_year.rt`.
#![tactic(auto)]

mod balances;
mod claim;
mod claim_file;
mod column;
mod column_values;
mod csv_record;
mod entry;
mod family_year;
mod field;
mod header;
mod headered_file;
mod laws;
mod name_hashing;
mod records;
mod row_summary;
mod rows;
mod validation;

pub use balances::{Balances, read_balances};
pub use claim_file::ClaimFile;
pub use csv_record::CsvRecord;
pub use entry::OpeningEntry;
pub use faults::{BalanceFault, FileFault, RowCause, RowFault};
pub use headered_file::FILE_LIMIT_BYTES;
pub use laws::{
    claims_have_the_plan_s_fields, files_have_rows, given_row_has_the_claim,
    given_row_is_the_first, no_records_give_no_rows, reader_begins_with_all_rows,
    text_has_one_list_of_rows,
};
pub use row_summary::{IdColumns, RowSummary};
pub use rows::{Row, Rows};
