//! A provider's file with a validated header.
//!
//! `ClaimFile::new` validates the header once: the file is within its size limit and has a header,
//! and the header has each required column of the plan's claims exactly once. The value has the
//! text and the places of the columns. So every call of `rows` begins at the first record, and
//! fails only if memory runs out.
ghost use Rattle.std.specs.Prelude.{◌≡◌, IfOk, IfErr};
ghost use Rattle.csv.specs.Records.{fields_of};
ghost use Rattle.intake_csv.specs.ClaimFile.{IsFileOf, rows_of};
ghost use Rattle.intake_csv.specs.Columns.{HasFileFault, claim_columns};
ghost use Rattle.intake_csv.specs.Laws.{LieApart};

use crate::claim::claim_columns;
use crate::column::Layout;
use crate::headered_file::read_headered_file;
use crate::records::Records;
use crate::rows::Rows;
use csv::ByteRecord;
use faults::FileFault;
use std::alloc::{AllocError, Global};
use std::marker::Model;
use tables::Plan;

/// A claim file: its text, which it borrows, the places of the required columns in its header, and
/// whether there is one for the family.
#[derive(Drop)]
pub struct ClaimFile<'t> {
    text: &'t [u8],
    layout: Layout,
    families: bool,
}

impl<'t> Model for ClaimFile<'t> {
    ghost use Rattle.intake_csv.specs.ClaimFile.{FileParts, IsValidated};

    ghost Value = { FileParts };

    ghost view = { λ f. record { text = f.text.now; layout = f.layout } };

    ghost invariant = { λ f. IsValidated f.text.now f.layout f.families };
}

impl<'t> ClaimFile<'t> {
    /// Validates the header of a claim file under a plan. The first fault in the order of
    /// `FileFault` is returned.
    pub fn new(alloc: Global, plan: &Plan, text: &'t [u8]) -> Result<ClaimFile<'t>, FileFault>
        ensures ok { IfOk result (IsFileOf plan.now.names text.now) }
        ensures fault { IfErr result (HasFileFault (claim_columns plan.now.names) text.now) }
    {
        // proof: the plan's names are distinct, so the columns have distinct places
        let _names = plan.names();
        let needed = claim_columns(alloc, plan)?;
        let headered_file = read_headered_file(alloc, needed.as_slice(), text)?;
        Ok(ClaimFile {
            text,
            layout: headered_file.layout,
            families: plan.keeps_families(),
        })
    }

    /// Returns the text of the file.
    pub fn text(&self) -> &'t [u8]
        ensures { result.now ≡ self.now.text }
    {
        self.text
    }

    /// Returns a reader of the file's rows, at the first record after the header.
    pub fn rows(&self, alloc: Global) -> Result<Rows<'t>, AllocError>
        ensures start { IfOk result (λ rows. rows ≡ rows_of self.now) }
        ensures apart { IfOk result (λ rows. LieApart rows.layout.columns) }
    {
        let layout = self.layout.duplicate(alloc)?;
        let mut records = Records::new(alloc, self.text);
        let mut header = ByteRecord::new(alloc);
        if !records.read(&mut header)? {
            unreachable!();
        }
        Ok(Rows::after_header(alloc, layout, self.families, records))
    }
}
