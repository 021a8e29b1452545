// The remainder of a division of two floats, without the operator `%`: compiled code takes that from the C library,
// and needs a late version of it.

ghost use Rattle.std.specs.Prelude.{◌≡◌, true};
ghost use Rattle.std.specs.Float.{binary64};
ghost use Rattle.std.specs.Float.Ieee.{lt, rem};
ghost use Rattle.float.specs.Float as Float;

use crate::{abs, is_finite};

// Of a size and a divisor: 2 * b is taken off first, then b once where it still fits. Each step is exact. A b + b
// that is infinite is above every a. From the largest float to the smallest it is 2,099 calls deep.
fn reduced(a: f64, b: f64) -> f64
    requires unsigned { Float.abs a ≡ a }
    requires finite { Float.is_finite a ≡ true }
    requires above_zero { lt Float.zero b ≡ true }
    ensures { result ≡ rem binary64 a b }
{
    if a < b {
        return a;
    }
    let r = reduced(a, b + b);
    if r < b { r } else { r - b }
}

// x % y. Of x's sign, a zero too; NaN where y is 0, x is infinite, or one is a NaN.
pub fn remainder(x: f64, y: f64) -> f64
    ensures { result ≡ rem binary64 x y }
{
    let a = abs(x);
    let b = abs(y);
    if a < b {
        return x;
    }
    if (0.0 < b) & is_finite(a) {
        let r = reduced(a, b);
        if x < 0.0 { -r } else { r }
    } else {
        f64::NAN
    }
}
