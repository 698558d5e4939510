//! What two remittances of the same files say of each record: those of two plans.
//!
//! `comparison_of` lists the records that differ as a CSV file, and counts all records by status and
//! reason. `remittances` reads both remittances side by side.

mod reasons;
mod remittances;

use crate::comparison::reasons::Reasons;
use crate::comparison::remittances::Remittances;
use crate::sheet::Sheet;
pub use reasons::ReasonCount;
use std::alloc::{AllocError, Global};

/// Two remittances of the same files.
#[derive(Clone, Copy)]
pub struct ComparedTexts<'a> {
    /// The names of the providers' files, in their order.
    pub names: &'a [&'a str],
    /// The remittance of the old plan.
    pub old: &'a [u8],
    /// The remittance of the new plan.
    pub new: &'a [u8],
    /// Whether remarks are compared too.
    pub has_remarks: bool,
}

/// What two remittances say of each record.
pub struct Comparison {
    /// A CSV file: a header, and a record for each record that differs.
    pub text: Vec<u8>,
    /// The number of records, without the header and the totals.
    pub records: u64,
    /// The number of records that differ.
    pub differing: u64,
    /// The number of records with each status and reason, under both plans.
    pub reasons: Vec<ReasonCount>,
    /// The sums of what members pay and of what the plan pays, under both plans.
    pub old_share: Vec<u8>,
    pub new_share: Vec<u8>,
    pub old_paid: Vec<u8>,
    pub new_paid: Vec<u8>,
}

impl Comparison {
    fn empty(alloc: Global) -> Comparison {
        Comparison {
            text: Vec::new(alloc),
            records: 0,
            differing: 0,
            reasons: Vec::new(alloc),
            old_share: Vec::new(alloc),
            new_share: Vec::new(alloc),
            old_paid: Vec::new(alloc),
            new_paid: Vec::new(alloc),
        }
    }
}

impl Drop for Comparison {
    fn drop(self) {
        let Comparison {
            text: _,
            records: _,
            differing: _,
            reasons: _,
            old_share: _,
            new_share: _,
            old_paid: _,
            new_paid: _,
        } = self;
    }
}

/// Compares two remittances. A record of the list has the name of the file, the number of the record, the
/// fields before `status`, and each field from `status` on twice: as the old plan and as the new plan
/// gives it.
pub fn comparison_of(alloc: Global, texts: ComparedTexts<'_>) -> Result<Comparison, AllocError> {
    let mut comparison = Comparison::empty(alloc);
    fill(alloc, texts, &mut comparison)?;
    Ok(comparison)
}

fn fill(
    alloc: Global,
    texts: ComparedTexts<'_>,
    comparison: &mut Comparison,
) -> Result<(), AllocError> {
    let mut both = Remittances::new(alloc, texts.old, texts.new, texts.has_remarks)?;
    list_records(alloc, texts, &mut both, comparison)?;
    comparison
        .old_share
        .extend_from_slice(both.old_field(b"share"))?;
    comparison
        .new_share
        .extend_from_slice(both.new_field(b"share"))?;
    comparison
        .old_paid
        .extend_from_slice(both.old_field(b"paid"))?;
    comparison
        .new_paid
        .extend_from_slice(both.new_field(b"paid"))
}

fn list_records(
    alloc: Global,
    texts: ComparedTexts<'_>,
    both: &mut Remittances<'_>,
    comparison: &mut Comparison,
) -> Result<(), AllocError> {
    let mut sheet = Sheet::new(alloc);
    let mut reasons = Reasons::new(alloc);
    push_records(alloc, texts, both, &mut sheet, &mut reasons, comparison)?;
    comparison.text = sheet.into_text()?;
    comparison.reasons = reasons.into_counts();
    Ok(())
}

fn push_records(
    alloc: Global,
    texts: ComparedTexts<'_>,
    both: &mut Remittances<'_>,
    sheet: &mut Sheet,
    reasons: &mut Reasons,
    comparison: &mut Comparison,
) -> Result<(), AllocError> {
    push_header(alloc, sheet, both)?;
    // Each record has at least one byte.
    for _ in 0..texts.old.len() {
        if !both.read()? {
            break;
        }
        comparison.records = comparison.records.saturating_add(1);
        reasons.count(alloc, both)?;
        if both.differ() {
            comparison.differing = comparison.differing.saturating_add(1);
            push_record(sheet, texts.names, both)?;
        }
    }
    Ok(())
}

fn push_header(alloc: Global, sheet: &mut Sheet, both: &Remittances<'_>) -> Result<(), AllocError> {
    sheet.push(b"file")?;
    for place in 1..both.first_compared() {
        sheet.push(both.name(place))?;
    }
    for place in both.first_compared()..both.end_compared() {
        push_prefixed(alloc, sheet, b"old_", both.name(place))?;
        push_prefixed(alloc, sheet, b"new_", both.name(place))?;
    }
    sheet.end_record()
}

fn push_prefixed(
    alloc: Global,
    sheet: &mut Sheet,
    prefix: &[u8],
    name: &[u8],
) -> Result<(), AllocError> {
    let mut whole = Vec::from_slice(alloc, prefix)?;
    whole.extend_from_slice(name)?;
    sheet.push(whole.as_slice())
}

fn push_record(
    sheet: &mut Sheet,
    names: &[&str],
    both: &Remittances<'_>,
) -> Result<(), AllocError> {
    sheet.push_shown(name_of_file(names, both.provider()).as_bytes())?;
    for place in 1..both.first_compared() {
        sheet.push_shown(both.front_field(place))?;
    }
    for place in both.first_compared()..both.end_compared() {
        sheet.push_shown(both.old_field(both.name(place)))?;
        sheet.push_shown(both.new_field(both.name(place)))?;
    }
    sheet.end_record()
}

fn name_of_file<'n>(names: &'n [&'n str], provider: usize) -> &'n str {
    match names.get(provider.saturating_sub(1)) {
        Some(name) => *name,
        None => "",
    }
}
