//! The kinds of values.
ghost use Rattle.std.specs.Prelude.{◌≡◌};
ghost use Rattle.tables.specs.Plan.{same_kind, has_kind};

use feel_tests::{Kind, Value};

fn same_kind(one: Kind, other: Kind) -> bool
    ensures { result ≡ same_kind one other }
{
    match (one, other) {
        (Kind::Number, Kind::Number) => true,
        (Kind::Text, Kind::Text) => true,
        (Kind::Flag, Kind::Flag) => true,
        (Kind::Day, Kind::Day) => true,
        _ => false,
    }
}

/// Returns whether the value is of the kind.
pub fn has_kind(kind: Kind, value: &Value) -> bool
    ensures { result ≡ has_kind kind value.now }
{
    same_kind(kind, value.kind())
}
