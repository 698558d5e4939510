//! The fields of the remittance's records.
ghost use Rattle.std.specs.Prelude.{◌≡◌, ◌≤◌, ℕ, ℤ, Some, IfOk, pos, List, [], ◌∷◌, codes, decimal, map, replicate, OnOk};
ghost use Rattle.faults.specs.ReasonText.{reason_text};
ghost use Rattle.feel_tests.specs.Calendar.{year_of, year_text};
ghost use Rattle.fixpoint.specs.Money.{money_text};
ghost use Rattle.tables.specs.Plan.{has_families, has_years};
ghost use Rattle.journal.specs.Events.{accepted_count as accepted_in};
ghost use Rattle.journal.specs.declared.event.Event.{Event as AnyEvent};
ghost use Rattle.settlement.specs.Accounts.{family_of};
ghost use Rattle.settlement.specs.declared.claim.Claim.{Claim as AnyClaim};
ghost use Rattle.intake_csv.specs.RowSummary.{IsDayLocatedAt, IsSummaryOf, AreIdColumnsOf, IsLocatedAt};
ghost use Rattle.intake_csv.specs.declared.rows.Row.{Row as AnyRow};
ghost use Rattle.claim_gate.specs.Terms.{texts_of};
ghost use Rattle.remit_records.specs.Amounts.{amount_of, name_of};
ghost use Rattle.remit_records.specs.Fields.{Pushes};
ghost use Rattle.remit_records.specs.Looked.{AreSums, looked_up, outcome_in};
ghost use Rattle.remit_records.specs.FieldTexts.{remarks_text};
ghost use Rattle.remit_records.specs.Records.{front_names, header_fields, record_of, reported_by, status_fields, reported_of, reported_refused, total_fields, total_front, id_column_fields, family_fields, whose_fields, year_fields};

use crate::amount::{AMOUNTS, Amount};
use crate::decisions::Decisions;
use crate::field_texts::{fault_text, join_remarks, reason_text, sum_text};
use crate::fields::push_field;
use crate::sums::Sums;
use csv::Writer;
use feel_tests::{day_year, year_text};
use intake_csv::{CsvRecord, IdColumns, RowFault, RowSummary};
use itoa::Buffer;
use settlement::{Money, Outcome, Reason, Verdict};
use std::alloc::{AllocError, Global};
use tables::{has_families, has_years};

/// The names of the fields before the identifiers. The record of totals fills these fields too.
const FIELDS_BEFORE: [&[u8]; 2] = [b"provider", b"record"];

/// The names of the fields between the identifiers and the amounts.
const FIELDS_BETWEEN: [&[u8]; 2] = [b"status", b"reason"];

/// Appends the fields of the header, which depends on the plan's version.
pub fn push_header(line: &mut Writer<Vec<u8>>, version: u8) -> Result<(), AllocError>
    ensures { OnOk result (Pushes line.old line.new (header_fields version)) }
{
    push_front_names(line, version)?;
    push_names(line, &AMOUNTS)?;
    push_field(line, b"remarks")
}

/// Appends the fields for the row of a provider's file that `summary` summarizes; `source` is the CSV
/// record of the row. Several remarks are joined in `joined`, a buffer that all rows use.
pub fn push_row(
    alloc: Global,
    line: &mut Writer<Vec<u8>>,
    joined: &mut Vec<u8>,
    decisions: &Decisions,
    provider: usize,
    summary: &RowSummary,
    source: &CsvRecord,
) -> Result<(), AllocError>
    requires { 1 ≤ provider }
    ensures { OnOk result ((row : AnyRow) → IsSummaryOf source.now summary.now row
        → Pushes line.old line.new (record_of (looked_up decisions.now) provider row)) }
{
    push_number(line, provider)?;
    match summary {
        RowSummary::Good {
            number,
            place,
            id_columns,
        } => {
            push_number(line, *number)?;
            push_id_columns(alloc, line, decisions.version(), *id_columns, source)?;
            push_claim(alloc, line, joined, decisions.outcome(provider, *place))
        }
        RowSummary::Bad { number, fault } => {
            push_number(line, *number)?;
            push_whose(line, decisions.version(), b"", b"", b"", b"")?;
            push_refused(alloc, line, *fault)
        }
    }
}

/// Appends the fields of the totals: the number of accepted claims and the sums over the paid claims.
pub fn push_total(
    alloc: Global,
    line: &mut Writer<Vec<u8>>,
    version: u8,
    accepted: usize,
    sums: Sums,
) -> Result<(), AllocError>
    ensures { OnOk result ((J : List AnyEvent) (count : ℕ) → accepted ≡ accepted_in J
        → AreSums J count sums → Pushes line.old line.new (total_fields version J)) }
{
    push_total_front(line, version, accepted)?;
    push_sums(alloc, line, sums.as_slice())?;
    push_field(line, b"")
}

// Appends the names of the fields before the amounts.
fn push_front_names(line: &mut Writer<Vec<u8>>, version: u8) -> Result<(), AllocError>
    ensures { OnOk result (Pushes line.old line.new (front_names version)) }
{
    push_all(line, &FIELDS_BEFORE)?;
    push_whose(line, version, b"claim", b"family", b"member", b"year")?;
    push_all(line, &FIELDS_BETWEEN)
}

// Appends the fields of the totals before the amounts.
fn push_total_front(
    line: &mut Writer<Vec<u8>>,
    version: u8,
    accepted: usize,
) -> Result<(), AllocError>
    ensures { OnOk result (Pushes line.old line.new (total_front version accepted)) }
{
    push_field(line, b"total")?;
    push_number(line, accepted)?;
    push_whose(line, version, b"", b"", b"", b"")?;
    push_repeated(line, b"", FIELDS_BETWEEN.len())
}

// Appends the identifiers of a claim. The year is read only if the plan keeps benefit years.
fn push_id_columns(
    alloc: Global,
    line: &mut Writer<Vec<u8>>,
    version: u8,
    id_columns: IdColumns,
    source: &CsvRecord,
) -> Result<(), AllocError>
    ensures { OnOk result ((claim : AnyClaim) → AreIdColumnsOf source.now id_columns claim
        → Pushes line.old line.new (id_column_fields version claim)) }
{
    let id = field_at(source, id_columns.id);
    let family = family_at(source, id_columns);
    let member = field_at(source, id_columns.member);
    if !has_years(version) {
        return push_whose(line, version, id, family, member, b"");
    }
    match year_at(alloc, source, id_columns.service)? {
        Some(year) => push_whose(line, version, id, family, member, year.as_slice()),
        None => push_whose(line, version, id, family, member, b""),
    }
}

// A plan without families has no family column: each member is a family alone.
fn family_at(source: &CsvRecord, id_columns: IdColumns) -> &[u8]
    ensures { (claim : AnyClaim) → AreIdColumnsOf source.now id_columns claim
        → result.now ≡ family_of claim }
{
    match id_columns.family {
        Some(place) => field_at(source, place),
        None => field_at(source, id_columns.member),
    }
}

fn year_at(alloc: Global, source: &CsvRecord, place: usize) -> Result<Option<[u8; 4]>, AllocError>
    ensures { IfOk result (λ year. (day : ℤ) → IsDayLocatedAt source.now place day
        → year ≡ Some (year_text (year_of day))) }
{
    match source.day(alloc, place)? {
        Some(day) => Ok(Some(year_text(day_year(day.epoch_day())))),
        None => Ok(None),
    }
}

// The summary of a row refers only to fields that the row has, so the empty text is never used.
fn field_at(source: &CsvRecord, place: usize) -> &[u8]
    ensures { (text : List ℕ) → IsLocatedAt source.now place text → result.now ≡ text }
{
    match source.bytes(place) {
        Some(field) => field,
        None => b"",
    }
}

/// Appends the identifiers of a record. Only some versions of a plan have a family and a year.
pub fn push_whose(
    line: &mut Writer<Vec<u8>>,
    version: u8,
    claim: &[u8],
    family: &[u8],
    member: &[u8],
    year: &[u8],
) -> Result<(), AllocError>
    ensures { OnOk result (Pushes line.old line.new
        (whose_fields version claim.now family.now member.now year.now)) }
{
    push_field(line, claim)?;
    push_family(line, has_families(version), family)?;
    push_field(line, member)?;
    push_year(line, has_years(version), year)
}

/// Appends the family, if the plan keeps accumulators for families.
pub fn push_family(
    line: &mut Writer<Vec<u8>>,
    families: bool,
    family: &[u8],
) -> Result<(), AllocError>
    ensures { OnOk result (Pushes line.old line.new (family_fields families family.now)) }
{
    if families {
        push_field(line, family)
    } else {
        Ok(())
    }
}

/// Appends the benefit year, if the plan keeps accumulators by benefit year.
pub fn push_year(
    line: &mut Writer<Vec<u8>>,
    keeps_years: bool,
    year: &[u8],
) -> Result<(), AllocError>
    ensures { OnOk result (Pushes line.old line.new (year_fields keeps_years year.now)) }
{
    if keeps_years {
        push_field(line, year)
    } else {
        Ok(())
    }
}

/// Appends the status of a claim and all that follows it. A claim without an outcome was late.
/// Several remarks are joined in `joined`.
pub fn push_claim(
    alloc: Global,
    line: &mut Writer<Vec<u8>>,
    joined: &mut Vec<u8>,
    decided: Option<&Outcome>,
) -> Result<(), AllocError>
    ensures { OnOk result (Pushes line.old line.new
        (status_fields (reported_of (outcome_in decided.entry)))) }
{
    match decided {
        Some(decision) => push_decision(alloc, line, joined, decision),
        None => {
            push_field(line, b"late")?;
            push_repeated(line, b"", 1 + AMOUNTS.len() + 1)
        }
    }
}

fn push_decision(
    alloc: Global,
    line: &mut Writer<Vec<u8>>,
    joined: &mut Vec<u8>,
    decision: &Outcome,
) -> Result<(), AllocError>
    ensures { OnOk result (Pushes line.old line.new
        (status_fields (reported_by decision.now.verdict decision.now))) }
{
    match decision.verdict {
        Verdict::Paid => {
            push_status(line, b"paid", b"")?;
            push_amounts(line, decision, &AMOUNTS)?;
            push_remarks(line, joined, decision)
        }
        Verdict::Denied => {
            push_status(line, b"denied", b"")?;
            push_repeated(line, b"0.00", AMOUNTS.len())?;
            push_remarks(line, joined, decision)
        }
        Verdict::Pended(reason) => {
            push_pended(alloc, line, reason)?;
            push_repeated(line, b"0.00", AMOUNTS.len())?;
            push_field(line, b"")
        }
    }
}

fn push_pended(alloc: Global, line: &mut Writer<Vec<u8>>, reason: Reason) -> Result<(), AllocError>
    ensures { OnOk result (Pushes line.old line.new
        (codes "pended" ∷ reason_text reason ∷ [])) }
{
    push_status(line, b"pended", reason_text(alloc, reason)?.as_bytes())
}

fn push_status(line: &mut Writer<Vec<u8>>, status: &[u8], reason: &[u8]) -> Result<(), AllocError>
    ensures { OnOk result (Pushes line.old line.new (status.now ∷ reason.now ∷ [])) }
{
    push_field(line, status)?;
    push_field(line, reason)
}

/// Appends the status of a refused record and all that follows it.
pub fn push_refused(
    alloc: Global,
    line: &mut Writer<Vec<u8>>,
    fault: RowFault,
) -> Result<(), AllocError>
    ensures { OnOk result (Pushes line.old line.new (status_fields (reported_refused fault))) }
{
    push_status(line, b"refused", fault_text(alloc, fault)?.as_bytes())?;
    push_repeated(line, b"", AMOUNTS.len() + 1)
}

fn push_names(line: &mut Writer<Vec<u8>>, amounts: &[Amount]) -> Result<(), AllocError>
    ensures { OnOk result (Pushes line.old line.new (map name_of amounts.now)) }
{
    for amount in amounts {
        push_field(line, amount.name().as_bytes())?;
    }
    Ok(())
}

fn push_amounts(
    line: &mut Writer<Vec<u8>>,
    decision: &Outcome,
    amounts: &[Amount],
) -> Result<(), AllocError>
    ensures { OnOk result (Pushes line.old line.new
        (map (λ amount. money_text (amount_of amount decision.now)) amounts.now)) }
{
    for amount in amounts {
        push_money(line, amount.of(decision))?;
    }
    Ok(())
}

fn push_sums(alloc: Global, line: &mut Writer<Vec<u8>>, sums: &[u128]) -> Result<(), AllocError>
    ensures { OnOk result (Pushes line.old line.new
        (map (λ sum. money_text (pos sum)) sums.now)) }
{
    for sum in sums {
        push_sum(alloc, line, *sum)?;
    }
    Ok(())
}

// Most outcomes have at most one remark, which is appended without a copy.
#[tactic(auto, using(crate::proofs::Remarking::none_joined, crate::proofs::Remarking::one_joined))]
fn push_remarks(
    line: &mut Writer<Vec<u8>>,
    joined: &mut Vec<u8>,
    decision: &Outcome,
) -> Result<(), AllocError>
    ensures { OnOk result (Pushes line.old line.new (remarks_text decision.now.remarks ∷ [])) }
{
    let remarks = &decision.remarks;
    let Some(first) = remarks.get(0) else {
        return push_field(line, b"");
    };
    if remarks.len() == 1 {
        return push_field(line, first.as_bytes());
    }
    join_remarks(joined, remarks)?;
    push_field(line, joined.as_slice())
}

/// Appends a number in decimal digits.
pub fn push_number(line: &mut Writer<Vec<u8>>, number: usize) -> Result<(), AllocError>
    ensures { OnOk result (Pushes line.old line.new (decimal number ∷ [])) }
{
    push_field(line, Buffer::new().format(number).as_bytes())
}

/// Appends an amount of money, with two decimals.
pub fn push_money(line: &mut Writer<Vec<u8>>, money: Money) -> Result<(), AllocError>
    ensures { OnOk result (Pushes line.old line.new (money_text money ∷ [])) }
{
    let mut buffer = [0; 24];
    let length = money.amount().write_money(&mut buffer);
    push_field(line, &buffer[..length])
}

fn push_sum(alloc: Global, line: &mut Writer<Vec<u8>>, units: u128) -> Result<(), AllocError>
    ensures { OnOk result (Pushes line.old line.new (money_text (pos units) ∷ [])) }
{
    push_field(line, sum_text(alloc, units)?.as_bytes())
}

fn push_all(line: &mut Writer<Vec<u8>>, fields: &[&[u8]]) -> Result<(), AllocError>
    ensures { OnOk result (Pushes line.old line.new (texts_of fields.now)) }
{
    for field in fields {
        push_field(line, field)?;
    }
    Ok(())
}

fn push_repeated(line: &mut Writer<Vec<u8>>, field: &[u8], times: usize) -> Result<(), AllocError>
    ensures { OnOk result (Pushes line.old line.new (replicate times field.now)) }
{
    for _ in 0..times {
        push_field(line, field)?;
    }
    Ok(())
}
