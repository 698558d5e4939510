//! Laws of numbers and their texts, to be cited by other proofs. Each function has an empty body.
ghost use Rattle.fixpoint.specs.Money.{MoneyTextDenotes, ProductsAreRounded};
ghost use Rattle.fixpoint.specs.NumberText.{DenotesAtMostOne, ShortestTextDenotes};

/// A text denotes at most one number.
pub fn text_denotes_at_most_one()
    ensures { DenotesAtMostOne }
{}

/// The shortest text of a number denotes that number.
pub fn shortest_text_denotes()
    ensures { ShortestTextDenotes }
{}

/// The money text of whole cents denotes these cents.
pub fn money_text_denotes()
    ensures { MoneyTextDenotes }
{}

/// A product has exactly one nearest count of cents, the even one of two at a tie, and
/// `cents_of_product` returns it.
pub fn products_are_rounded()
    ensures { ProductsAreRounded }
{}
