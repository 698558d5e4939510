//! The report of a plan's check, which is complete before its first byte is written. It has all
//! overlaps and gaps, or only those that are errors.

ghost use Rattle.std.specs.Prelude.{◌≡◌, ◌+◌, ◌++◌, ◌∷◌, IfOk, OnOk, filter, get_or, length, map, []};
ghost use Rattle.cutplan.specs.Numbered.{IsTableNumber, overlaps_of};
ghost use Rattle.cutplan.specs.Violations.{overlap_is_error};
ghost use Rattle.check_report.specs.CheckText.{is_wide as is_wide_table, region_text};
ghost use Rattle.check_report.specs.Findings.{overlaps_in, reports_gaps, reports_wide};
ghost use Rattle.check_report.specs.CheckReport.{IsReported, IsReportedOf, column_text, column_texts, column_texts_if, marked_region, reported_places};

use cutplan::{Region, cell_count, check_table, gap_is_error, overlap_is_error};
use faults::Ordinal;
use feel_tests::{Literals, Value, append_joined};
use std::alloc::{AllocError, Global};
use std::marker::Model;
use tables::{Plan, Sequence};

/// The gaps and overlaps that a check reports.
#[derive(Clone, Copy)]
pub enum Findings {
    /// All gaps and overlaps.
    All,
    /// Only the gaps and overlaps that are errors under the table's hit policy.
    Errors,
}

/// A text in bytes. Contracts see it as a list of bytes.
#[derive(Drop)]
pub struct Bytes {
    bytes: Vec<u8>,
}

impl Model for Bytes {
    ghost use Rattle.std.specs.Prelude.{List, ℕ};

    ghost Value = { List ℕ };

    ghost view = { λ text. text.bytes.items };
}

impl Bytes {
    /// Returns the bytes as a slice.
    pub fn as_slice(&self) -> &[u8]
        ensures { result.now ≡ self.now }
    {
        self.bytes.as_slice()
    }
}

/// The texts of a column's regions.
#[derive(Drop)]
pub struct ColumnText {
    /// The text of each region, after a separator if the column is not the first.
    pub regions: Sequence<Bytes>,
    /// The number of cells of the columns after this one, or one more than the limit if there are
    /// more.
    pub following: usize,
}

impl ColumnText {
    /// Returns the text of the region at this index, or no text if there is no such region.
    pub fn region(&self, place: usize) -> &[u8]
        ensures { result.now ≡ get_or self.now.regions place [] }
    {
        match self.regions.as_slice().get(place) {
            Some(text) => text.as_slice(),
            None => &[],
        }
    }
}

/// The report on a table.
pub struct TableReport {
    /// The overlaps, as pairs of rule numbers from 1.
    pub overlaps: Vec<(usize, usize)>,
    /// Whether the table has too many cells for its gaps to be searched, and a gap would be reported.
    pub is_wide: bool,
    /// The columns, or no columns if no gap is reported.
    pub columns: Sequence<ColumnText>,
    /// The indices of the gaps among the cells, from 0.
    pub gaps: Vec<u32>,
}

impl Drop for TableReport {
    fn drop(self) {
        let TableReport {
            overlaps: _,
            is_wide: _,
            columns: _,
            gaps: _,
        } = self;
    }
}

/// The report on a plan.
#[derive(Drop)]
pub struct CheckReport {
    /// The reports on the tables, in order.
    pub tables: Vec<TableReport>,
    /// The number of reported gaps.
    pub gaps: usize,
    /// The number of reported overlaps.
    pub overlaps: usize,
}

/// Checks a plan. The regions and masks of each table are freed before the next table is checked.
pub fn check_report(
    alloc: Global,
    plan: &Plan,
    findings: Findings,
) -> Result<CheckReport, AllocError>
    ensures { IfOk result (IsReportedOf findings plan.now) }
{
    let mut reported = CheckReport {
        tables: Vec::new(alloc),
        gaps: 0,
        overlaps: 0,
    };
    for place in 0..plan.tables().len() {
        let table = table_report(alloc, plan, Ordinal::at(place), findings)?;
        reported.push(table)?;
    }
    Ok(reported)
}

impl CheckReport {
    // Appends the report on the next table. The counts of real tables do not overflow; the checked
    // sums make them exact.
    fn push(&mut self, table: TableReport) -> Result<(), AllocError>
        ensures tables { OnOk result (self.new.tables.items ≡ self.old.tables.items ++ table ∷ []) }
        ensures gaps { OnOk result (self.new.gaps ≡ self.old.gaps + length table.gaps.items) }
        ensures overlaps { OnOk result
            (self.new.overlaps ≡ self.old.overlaps + length table.overlaps.items) }
    {
        self.gaps = sum(self.gaps, table.gaps.len())?;
        self.overlaps = sum(self.overlaps, table.overlaps.len())?;
        self.tables.push(table)?;
        Ok(())
    }
}

fn sum(one: usize, other: usize) -> Result<usize, AllocError>
    ensures { IfOk result (λ both. both ≡ one + other) }
{
    match one.checked_add(other) {
        Some(both) => Ok(both),
        None => Err(AllocError),
    }
}

fn table_report(
    alloc: Global,
    plan: &Plan,
    table: Ordinal,
    findings: Findings,
) -> Result<TableReport, AllocError>
    requires { IsTableNumber plan.now table }
    ensures { IfOk result (IsReported findings plan.now table) }
{
    let check = check_table(alloc, plan, table.number())?;
    let is_wide = check.gaps.is_none();
    let overlaps = reported_overlaps(alloc, plan, table, findings, check.overlaps)?;
    let gaps = reported_gaps(alloc, plan, table, findings, check.gaps);
    let columns = reported_columns(alloc, check.columns.as_slice(), gaps.as_slice())?;
    Ok(TableReport {
        overlaps,
        is_wide: reports_wide(plan, table, findings, is_wide),
        columns,
        gaps,
    })
}

fn reported_overlaps(
    alloc: Global,
    plan: &Plan,
    table: Ordinal,
    findings: Findings,
    overlaps: Vec<(usize, usize)>,
) -> Result<Vec<(usize, usize)>, AllocError>
    requires number { IsTableNumber plan.now table }
    requires all { overlaps.items ≡ overlaps_of plan.now table }
    ensures { IfOk result (λ found. found.items ≡ overlaps_in findings plan.now table) }
{
    match findings {
        Findings::All => Ok(overlaps),
        Findings::Errors => violating_pairs(alloc, plan, table, overlaps.as_slice()),
    }
}

fn violating_pairs(
    alloc: Global,
    plan: &Plan,
    table: Ordinal,
    overlaps: &[(usize, usize)],
) -> Result<Vec<(usize, usize)>, AllocError>
    requires { IsTableNumber plan.now table }
    ensures { IfOk result (λ found. found.items
        ≡ filter (λ rules. overlap_is_error plan.now table rules.0 rules.1) overlaps.now) }
{
    let mut found = Vec::new(alloc);
    for rules in overlaps {
        if overlap_is_error(plan, table.number(), rules.0, rules.1) {
            found.push(*rules)?;
        }
    }
    Ok(found)
}

// A wide table has no list of gaps.
fn reported_gaps(
    alloc: Global,
    plan: &Plan,
    table: Ordinal,
    findings: Findings,
    gaps: Option<Vec<u32>>,
) -> Vec<u32>
    requires { IsTableNumber plan.now table }
    ensures { result.items ≡ reported_places findings plan.now table gaps }
{
    match gaps {
        Some(gaps) => {
            if reports_gaps(plan, table, findings) {
                gaps
            } else {
                Vec::new(alloc)
            }
        }
        None => Vec::new(alloc),
    }
}

// Decides whether the line of a wide table is reported: if its gaps would be.
fn reports_wide(plan: &Plan, table: Ordinal, findings: Findings, is_wide: bool) -> bool
    requires number { IsTableNumber plan.now table }
    requires wide { is_wide ≡ is_wide_table plan.now table }
    ensures { result ≡ reports_wide findings plan.now table }
{
    if reports_gaps(plan, table, findings) {
        is_wide
    } else {
        false
    }
}

fn reports_gaps(plan: &Plan, table: Ordinal, findings: Findings) -> bool
    requires { IsTableNumber plan.now table }
    ensures { result ≡ reports_gaps findings plan.now table }
{
    match findings {
        Findings::All => true,
        Findings::Errors => gap_is_error(plan, table.number()),
    }
}

// Only gaps are printed by their columns, so without gaps the texts are not needed.
fn reported_columns(
    alloc: Global,
    columns: &[Sequence<Region>],
    gaps: &[u32],
) -> Result<Sequence<ColumnText>, AllocError>
    ensures { IfOk result (λ texts. texts ≡ column_texts_if gaps.now columns.now) }
{
    if gaps.is_empty() {
        return Ok(Sequence::new(alloc));
    }
    column_texts(alloc, columns)
}

fn column_texts(
    alloc: Global,
    columns: &[Sequence<Region>],
) -> Result<Sequence<ColumnText>, AllocError>
    ensures { IfOk result (λ texts. texts ≡ column_texts [] columns.now) }
{
    let mut texts = Sequence::new(alloc);
    push_columns(alloc, "", columns, &mut texts)?;
    Ok(texts)
}

// Appends the texts of the columns. The texts of the first of them begin with this mark, those of
// the others with the separator.
fn push_columns(
    alloc: Global,
    mark: &str,
    columns: &[Sequence<Region>],
    texts: &mut Sequence<ColumnText>,
) -> Result<(), AllocError>
    ensures { OnOk result (texts.new ≡ texts.old ++ column_texts mark.now columns.now) }
{
    match columns.split_first() {
        Some((regions, more)) => {
            let text = column_text(alloc, mark, regions.as_slice(), more)?;
            texts.push(text)?;
            push_columns(alloc, " ; ", more, texts)
        }
        None => Ok(()),
    }
}

// Returns the texts of a column that comes before `more` columns.
fn column_text(
    alloc: Global,
    mark: &str,
    regions: &[Region],
    more: &[Sequence<Region>],
) -> Result<ColumnText, AllocError>
    ensures { IfOk result (λ text. text ≡ column_text mark.now regions.now more.now) }
{
    let regions = region_texts(alloc, mark, regions)?;
    let following = cell_count(more);
    Ok(ColumnText { regions, following })
}

fn region_texts(
    alloc: Global,
    mark: &str,
    regions: &[Region],
) -> Result<Sequence<Bytes>, AllocError>
    ensures { IfOk result (λ texts. texts ≡ map (marked_region mark.now) regions.now) }
{
    let mut texts = Sequence::new(alloc);
    for region in regions {
        texts.push(marked_region(alloc, mark, region)?)?;
    }
    Ok(texts)
}

fn marked_region(alloc: Global, mark: &str, region: &Region) -> Result<Bytes, AllocError>
    ensures { IfOk result (λ text. text ≡ marked_region mark.now region.now) }
{
    let mut bytes = Vec::new(alloc);
    bytes.extend_from_slice(mark.as_bytes())?;
    append_region(&mut bytes, region)?;
    Ok(Bytes { bytes })
}

fn append_region(text: &mut Vec<u8>, region: &Region) -> Result<(), AllocError>
    ensures { OnOk result (text.new.items ≡ text.old.items ++ region_text region.now) }
{
    match region {
        Region::Below(cut) => {
            text.extend_from_slice(b"<")?;
            cut.write_text(text)
        }
        Region::At(value) => value.write_text(text),
        Region::Between(low, high) => {
            text.extend_from_slice(b"]")?;
            low.write_text(text)?;
            text.extend_from_slice(b"..")?;
            high.write_text(text)?;
            text.extend_from_slice(b"[")
        }
        Region::Above(cut) => {
            text.extend_from_slice(b">")?;
            cut.write_text(text)
        }
        Region::Other(names) => {
            text.extend_from_slice(b"not(")?;
            append_joined::<Value, Literals>(text, ",", names.as_slice())?;
            text.extend_from_slice(b")")
        }
        Region::Every => text.extend_from_slice(b"-"),
    }
}
