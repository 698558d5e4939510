//! Lines on standard error that are no errors.

use remarks::Remarks;
use value_command::print_lines;

/// Prints a line if a quoted field of the file is never closed, since the rows after it are lost. If memory runs out for the line, it is left out.
pub fn report_open_quote<R: Eprint + AllocGlobal>(rt: &R, name: &str, rows: &[u8]) {
    let mut remarks = Remarks::new(rt.alloc());
    if remarks.add_quotes(name, rows, false).is_ok() {
        print_lines(rt, remarks.lines());
    }
}
