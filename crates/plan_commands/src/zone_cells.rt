//! Cells for some of the regions of a name, in the grammar of a plan's cells.

use cutplan::Region;
use feel_tests::Value;
use std::alloc::{AllocError, Global};

/// Regions of a name that follow one another, by the indices of the first and of the last of them.
#[derive(Drop)]
struct Run {
    first: usize,
    last: usize,
}

/// An end of an interval, and whether it belongs to the interval.
#[derive(Clone, Copy)]
pub struct End<'r> {
    pub value: &'r Value,
    pub is_in: bool,
}

/// Appends a cell that holds in these regions of a name and in no other of its regions: a list, or `not` with a list where that is shorter, or where
/// the regions have texts that the plan does not name. `side` has the indices of the regions.
pub fn append_cell(
    alloc: Global,
    text: &mut Vec<u8>,
    regions: &[Region],
    side: &[usize],
) -> Result<(), AllocError> {
    let marks = marks_of(alloc, regions.len(), side)?;
    let listed = runs_of(alloc, regions, marks.as_slice(), true)?;
    let others = runs_of(alloc, regions, marks.as_slice(), false)?;
    if is_negation(regions, listed.as_slice(), others.as_slice()) {
        text.extend_from_slice(b"not(")?;
        append_runs(text, regions, others.as_slice())?;
        text.extend_from_slice(b")")
    } else {
        append_runs(text, regions, listed.as_slice())
    }
}

/// For each of `count` regions whether it is on the side.
fn marks_of(alloc: Global, count: usize, side: &[usize]) -> Result<Vec<bool>, AllocError> {
    let mut marks = vec![in alloc; false; count]?;
    for region in side {
        if let Some(mark) = marks.get_mut(*region) {
            *mark = true;
        }
    }
    Ok(marks)
}

/// The regions with this mark. Only numbers and days have an order, so that only their regions are joined.
fn runs_of(
    alloc: Global,
    regions: &[Region],
    marks: &[bool],
    wanted: bool,
) -> Result<Vec<Run>, AllocError> {
    let mut runs: Vec<Run> = Vec::new(alloc);
    let mut goes_on = false;
    for (place, region) in regions.iter().enumerate() {
        let is_wanted = marks.get(place) == Some(&wanted);
        if is_wanted {
            add_region(&mut runs, place, goes_on && is_ordered(region))?;
        }
        goes_on = is_wanted;
    }
    Ok(runs)
}

/// Adds a region to the last run, or as a run of its own.
fn add_region(runs: &mut Vec<Run>, place: usize, goes_on: bool) -> Result<(), AllocError> {
    if goes_on && let Some(run) = runs.last_mut() {
        run.last = place;
        return Ok(());
    }
    runs.push(Run {
        first: place,
        last: place,
    })?;
    Ok(())
}

fn is_ordered(region: &Region) -> bool {
    match region {
        Region::Below(_) | Region::Between(_, _) | Region::Above(_) => true,
        Region::At(value) => matches!(value, Value::Number(_) | Value::Day(_)),
        Region::Other(_) | Region::Every => false,
    }
}

/// Whether the listed regions need a negated list, or have a shorter one. A list can't have the texts that a plan does not name.
fn is_negation(regions: &[Region], listed: &[Run], others: &[Run]) -> bool {
    if has_other_texts(regions, others) {
        return false;
    }
    has_other_texts(regions, listed) || others.len() < listed.len()
}

fn has_other_texts(regions: &[Region], runs: &[Run]) -> bool {
    for run in runs {
        if let Some(Region::Other(_)) = regions.get(run.first) {
            return true;
        }
    }
    false
}

fn append_runs(text: &mut Vec<u8>, regions: &[Region], runs: &[Run]) -> Result<(), AllocError> {
    let mut mark = "";
    for run in runs {
        text.extend_from_slice(mark.as_bytes())?;
        append_run(text, regions, run)?;
        mark = ",";
    }
    Ok(())
}

fn append_run(text: &mut Vec<u8>, regions: &[Region], run: &Run) -> Result<(), AllocError> {
    let (Some(first), Some(last)) = (regions.get(run.first), regions.get(run.last)) else {
        return Ok(());
    };
    match first {
        Region::At(value) if run.first == run.last => value.write_text(text),
        _ => append_interval(text, low_end(first), high_end(last)),
    }
}

fn append_interval(
    text: &mut Vec<u8>,
    low: Option<End<'_>>,
    high: Option<End<'_>>,
) -> Result<(), AllocError> {
    match (low, high) {
        (Some(low), Some(high)) => append_bounded(text, low, high),
        (Some(low), None) => append_comparison(text, ">", low),
        (None, Some(high)) => append_comparison(text, "<", high),
        (None, None) => text.extend_from_slice(b"-"),
    }
}

/// Appends an interval with both ends.
pub fn append_bounded(text: &mut Vec<u8>, low: End<'_>, high: End<'_>) -> Result<(), AllocError> {
    text.extend_from_slice(if low.is_in { b"[" } else { b"]" })?;
    low.value.write_text(text)?;
    text.extend_from_slice(b"..")?;
    high.value.write_text(text)?;
    text.extend_from_slice(if high.is_in { b"]" } else { b"[" })
}

fn append_comparison(text: &mut Vec<u8>, sign: &str, end: End<'_>) -> Result<(), AllocError> {
    text.extend_from_slice(sign.as_bytes())?;
    if end.is_in {
        text.extend_from_slice(b"=")?;
    }
    end.value.write_text(text)
}

/// The low end of the values of a region, if it has one.
fn low_end(region: &Region) -> Option<End<'_>> {
    match region {
        Region::At(value) => Some(End { value, is_in: true }),
        Region::Between(low, _) => Some(End {
            value: low,
            is_in: false,
        }),
        Region::Above(cut) => Some(End {
            value: cut,
            is_in: false,
        }),
        Region::Below(_) | Region::Other(_) | Region::Every => None,
    }
}

/// The high end of the values of a region, if it has one.
fn high_end(region: &Region) -> Option<End<'_>> {
    match region {
        Region::At(value) => Some(End { value, is_in: true }),
        Region::Between(_, high) => Some(End {
            value: high,
            is_in: false,
        }),
        Region::Below(cut) => Some(End {
            value: cut,
            is_in: false,
        }),
        Region::Above(_) | Region::Other(_) | Region::Every => None,
    }
}
