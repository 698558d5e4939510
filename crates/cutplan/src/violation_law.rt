//! The law that relates errors of gaps and overlaps to the faults of tables. The function has an
//! empty body.
ghost use Rattle.cutplan.specs.ViolationLaws.{ErrorsAreFaults};

/// If all inputs have allowed values and no rule matches, a table has a `NoRule` fault if and only
/// if its gaps are errors. If two rules match whose overlap is an error, the table has a `Clash`
/// fault, and it has that fault only in this case.
///
/// For example, a table under `A` without a default has the rules `<=5` and `>=5` with the entries
/// 1 and 2: their overlap is an error, and the rules clash at 5.
pub fn errors_are_faults()
    ensures { ErrorsAreFaults }
{}
