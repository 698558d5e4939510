//! A file whose header has the required columns.
ghost use Rattle.std.specs.Prelude.{◌≡◌, ◌<◌, ◌∷◌, List, length, IfOk, IfErr};
ghost use Rattle.csv.specs.Records.{fields_of};
ghost use Rattle.intake_csv.specs.Columns.{HasFileFault};
ghost use Rattle.intake_csv.specs.HeaderedFile.{IsHeaderedFileOf};

use crate::column::{Layout, RequiredColumn};
use crate::header::find_columns;
use crate::records::Records;
use csv::ByteRecord;
use faults::FileFault;
use std::alloc::Global;

/// The greatest size of a file in bytes, including a byte order mark.
pub const FILE_LIMIT_BYTES: usize = 16_777_216;

/// The places of the required columns, and a reader that begins after the header.
#[derive(Drop)]
pub struct HeaderedFile<'t> {
    pub layout: Layout,
    pub records: Records<'t>,
}

/// Reads the header of a file with these required columns.
pub fn read_headered_file<'t>(
    alloc: Global,
    needed: &[RequiredColumn],
    text: &'t [u8],
) -> Result<HeaderedFile<'t>, FileFault>
    ensures ok { IfOk result (IsHeaderedFileOf needed.now text.now) }
    ensures fault { IfErr result (HasFileFault needed.now text.now) }
{
    if text.len() > FILE_LIMIT_BYTES {
        return Err(FileFault::TooLarge);
    }
    let mut records = Records::new(alloc, text);
    let mut header = ByteRecord::new(alloc);
    if !records.read(&mut header)? {
        return Err(FileFault::NoHeader);
    }
    let columns = find_columns(alloc, needed, &header)?;
    let layout = Layout {
        width: header.len(),
        columns,
    };
    Ok(HeaderedFile { layout, records })
}
