//! The condition on a value that a lock protects.

ghost use Rattle.std.specs.Prelude.{◌⊎◌};

/// A value that grows: the value that a pass leaves in the lock may follow the value that it found
/// there, in the sense of `leads`.
pub trait Growing {
    // The second value may follow the first.
    ghost leads: { Self → Self → Type 0 };

    ghost reflexive: { (x : Self) → leads x x };

    ghost transitive: { (x y z : Self) → leads x y → leads y z → leads x z };

    // If two values lead to a third, one of them leads to the other.
    ghost ordered: { (x y z : Self) → leads x z → leads y z → leads x y ⊎ leads y x };
}

/// A boxed value moves into and out of a lock as a single pointer.
impl<T: Growing> Growing for Box<T> {
    ghost leads = { λ old new. T.leads old.value new.value };

    ghost reflexive = { λ x. T.reflexive x.value };

    ghost transitive = { λ x y z. T.transitive x.value y.value z.value };

    ghost ordered = { λ x y z. T.ordered x.value y.value z.value };
}
