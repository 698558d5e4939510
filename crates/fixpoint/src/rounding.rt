//! Products rounded to whole cents, half to even.
ghost use Rattle.std.specs.Prelude.{◌≡◌};
ghost use Rattle.fixpoint.specs.Money.{cents_of_product, half_even};

const MILLION: u128 = 1_000_000;

/// Returns the product of two counts of units, rounded once to whole cents, in units.
pub fn cents_of_product(one: i64, other: i64) -> i128
    ensures { result ≡ cents_of_product one other }
{
    let product = i128::from(one) * i128::from(other);
    let units = half_even(product.unsigned_abs()) as i128 * 100;
    if product < 0 { -units } else { units }
}

/// Rounds a count of millionths to the nearest whole number, to the even one at a tie.
fn half_even(millionths: u128) -> u128
    ensures { result ≡ half_even millionths }
{
    let whole = millionths / MILLION;
    let rest = millionths % MILLION;
    if 2 * rest < MILLION {
        whole
    } else if MILLION < 2 * rest {
        whole + 1
    } else {
        whole + whole % 2
    }
}
