//! The explanation of a record of the remittance: how its claim is settled, or why it is refused.
//!
//! An explanation is a list of facts, each with its step, its name and its value. `explaining` has the
//! call for one record and `explaining_family` the call for all claims of a family; `asked` has what
//! both share. `finding` finds a claim by its identifier. `row` finds the record, and `search` walks through the claims in the order of
//! acceptance and settles those of the family, with the accumulators that `family` keeps. `numbers` has
//! the numbers of their records. `claim_facts` lists the facts: those of the tables are in `table` and
//! `matching`, those of the amounts in `settlement_steps`, and `record` has the record of the remittance.
//! `refusal` lists those of a refused record, whose fields `file_record` reads and `shown_field` shows in
//! part. `format` writes the facts. `laws` relates an explanation to the remittance.
//!
//! Begin with `explaining.rt`: the contract of `do_explain` is the promise of an explanation.
//! Then read `specs/Explained.antt`, `specs/Explanation.antt`, `specs/Steps.antt`, `specs/Tables.antt`
//! and `specs/Refusals.antt`, which define the facts, and `specs/Cases.antt`, which defines what comes
//! before a claim. `specs/FamilyExplanation.antt` defines the explanation of a family, and `specs/Walking.antt` what
//! is known on the way.
#![tactic(auto)]

mod asked;
mod claim_facts;
mod explaining;
mod explaining_family;
mod fact;
mod family;
mod family_facts;
mod file_record;
mod finding;
mod format;
mod given;
mod laws;
mod matching;
mod numbers;
mod record;
mod record_text;
mod refusal;
mod row;
mod search;
mod settlement_steps;
mod shown_field;
mod table;

pub use claim_gate::Order;
pub use explaining::{ExplainInput, Explained, do_explain};
pub use explaining_family::{ExplainFamilyInput, do_explain_family};
pub use finding::{FoundClaim, find_claim};
pub use format::Format;
pub use laws::{explanation_ends_with_its_record, found_claim_has_a_record};
pub use row::Place;
