//! The search for the required columns in the header of a file.
ghost use Rattle.std.specs.Prelude.{◌≡◌, ◌<◌, ◌++◌, ◌∷◌, [], List, length, slice_index_or, IfOk, IfErr, OnOk};
ghost use Rattle.std.specs.Str.{bytes_eq};
ghost use Rattle.csv.specs.Records.{fields_of};
ghost use Rattle.intake_csv.specs.Columns.{AreColumnsOf};
ghost use Rattle.intake_csv.specs.Header.{AreFound, HasColumnFault, MissesColumn, MatchesAs, comes_after};
ghost use Rattle.intake_csv.specs.declared.column.RequiredColumn.{RequiredColumn as AnyNeeded};

use crate::column::{Column, RequiredColumn};
use csv::ByteRecord;
use faults::FileFault;
use std::alloc::Global;
use tables::Sequence;

/// The occurrences of a name in a header.
#[derive(Clone, Copy)]
pub enum ColumnMatch {
    /// The name does not occur.
    Missing,
    /// The name occurs only at this place, from 0.
    Once(usize),
    /// The name occurs more than once.
    Repeated,
}

impl ColumnMatch {
    // Returns the occurrences in a header with one more place, which has the name if `here` is
    // true.
    fn after(self, place: usize, here: bool) -> ColumnMatch
        ensures { result ≡ comes_after self place here }
    {
        match self {
            ColumnMatch::Missing if here => ColumnMatch::Once(place),
            ColumnMatch::Once(_) if here => ColumnMatch::Repeated,
            _ => self,
        }
    }
}

/// The columns found so far, and whether a required name occurs more than once.
#[derive(Drop)]
struct Found {
    columns: Sequence<Column>,
    repeated: bool,
}

/// Finds the required columns in the header. Names are compared byte for byte. A missing column is
/// reported before a repeated one.
pub fn find_columns(
    alloc: Global,
    needed: &[RequiredColumn],
    header: &ByteRecord,
) -> Result<Sequence<Column>, FileFault>
    ensures ok { IfOk result (AreColumnsOf (fields_of header.now) needed.now) }
    ensures fault { IfErr result (HasColumnFault (fields_of header.now) needed.now) }
{
    let mut found = Found {
        columns: Sequence::new(alloc),
        repeated: false,
    };
    for column in needed {
        find_column(&mut found, column, header)?;
    }
    if found.repeated {
        return Err(FileFault::DuplicateColumn);
    }
    Ok(found.columns)
}

fn find_column(
    found: &mut Found,
    needed: &RequiredColumn,
    header: &ByteRecord,
) -> Result<(), FileFault>
    ensures found { OnOk result ((front : List AnyNeeded)
        → AreFound (fields_of header.now) front found.old
        → AreFound (fields_of header.now) (front ++ needed.now ∷ []) found.new) }
    ensures missing { IfErr result (MissesColumn (fields_of header.now) needed.now) }
{
    match column_match(header, needed.name.as_bytes()) {
        ColumnMatch::Missing => return Err(FileFault::MissingColumn),
        ColumnMatch::Once(place) => found.columns.push(Column {
            place,
            content: needed.content,
        })?,
        ColumnMatch::Repeated => found.repeated = true,
    }
    Ok(())
}

/// Returns the occurrences of the name in the header.
pub fn column_match(header: &ByteRecord, name: &[u8]) -> ColumnMatch
    ensures { MatchesAs name.now (fields_of header.now) result }
{
    let mut present = ColumnMatch::Missing;
    for place in 0..header.len() {
        present = present.after(place, has_name(header, place, name));
    }
    present
}

fn has_name(header: &ByteRecord, place: usize, name: &[u8]) -> bool
    requires { place < length (fields_of header.now) }
    ensures { result ≡ bytes_eq (slice_index_or (fields_of header.now) place []) name.now }
{
    match header.get(place) {
        Some(field) => field == name,
        None => unreachable!(),
    }
}
