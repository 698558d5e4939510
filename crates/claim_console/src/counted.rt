//! Reports what a run did with its records.

use crate::detail::detail_of;
use crate::explaining::AboutFiles;
use crate::summary::{refused_files_of, summary_of};
use console::names::SUMMARY;
use remit_records::RunCounts;
use run_lists::{FileSums, Note};

/// What a run has counted, as far as it was requested and memory sufficed for it.
#[derive(Clone, Copy)]
pub struct Counted<'a> {
    pub counts: &'a RunCounts,
    /// The sums of each file, in the order of the files.
    pub sums: Option<&'a [FileSums]>,
    /// The records that are pended or refused, in the order of the remittance.
    pub notes: Option<&'a [Note]>,
}

/// Prints the summary. With `--summary` there are lines for each file and each reason first. Without a summary, the files of which all records are
/// refused are reported. If memory runs out for the lines, they are left out.
pub fn report_counts<R: Eprint + AllocGlobal>(
    rt: &R,
    about: &AboutFiles,
    counted: Counted,
    has_summary: bool,
) {
    if about.plan.words.get_flag(SUMMARY)
        && let Ok(lines) = detail_of(rt.alloc(), counted)
    {
        let _ = rt.eprint(lines.as_str());
    }
    let lines = if has_summary {
        summary_of(rt.alloc(), counted.counts, about)
    } else {
        refused_files_of(rt.alloc(), counted.counts, about)
    };
    if let Ok(lines) = lines {
        let _ = rt.eprint(lines.as_str());
    }
}
