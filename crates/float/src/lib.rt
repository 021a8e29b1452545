// f64's methods, as the pages of Rust's standard library have them.
#![tactic(auto)]

ghost use Rattle.std.specs.Prelude.{◌≡◌};
ghost use Rattle.float.specs.Float as Float;
ghost use Rattle.float.specs.Float.{number_bits};
ghost use Rattle.float.specs.Parts.{is_before};

mod remainder;

// EPSILON of movement.rs and systems/movement.rs: `epsilon` of specs/Float.
pub const EPSILON: f64 = 1e-9;

// f64::abs. 0 - x is -x exactly, and +0 at either zero.
// Stays: with the library's abs and signum a tick takes a quarter more instructions.
pub fn abs(x: f64) -> f64
    ensures { result ≡ Float.abs x }
{
    let y = 0.0 - x;
    if x > y { x } else { y }
}

// f64::signum
// Stays: the library's goes by copysign, which compiles to branches; see abs.
#[tactic(auto, using(crate::proofs::Cases::signum_is))]
pub fn signum(x: f64) -> f64
    ensures { result ≡ Float.signum x }
{
    if x.is_nan() {
        x
    } else if x.is_sign_negative() {
        -1.0
    } else {
        1.0
    }
}

// f64::is_finite
// Stays: with the library's a tick on a loop takes a tenth more instructions.
#[tactic(auto, using(crate::proofs::Cases::finite_between))]
pub fn is_finite(x: f64) -> bool
    ensures { result ≡ Float.is_finite x }
{
    (f64::NEG_INFINITY < x) & (x < f64::INFINITY)
}

// f64::max
// Stays: of two zeros the library's promises only that it returns one of them, and the definition says which: the
// second. min likewise.
#[tactic(auto, unfolding(crate::specs::Float::max))]
pub fn max(x: f64, y: f64) -> f64
    ensures { result ≡ Float.max x y }
{
    if y.is_nan() | (x > y) { x } else { y }
}

// f64::min
#[tactic(auto, unfolding(crate::specs::Float::min))]
pub fn min(x: f64, y: f64) -> f64
    ensures { result ≡ Float.min x y }
{
    if y.is_nan() | (x < y) { x } else { y }
}

// f64::clamp, without its panic.
// Stays: the library's requires that min is at most max, which `manual_velocity` does not ask of its max speed; where
// it is not, these two tests would be needed all the same.
#[tactic(auto, unfolding(crate::specs::Float::clamp))]
pub fn clamp(x: f64, min: f64, max: f64) -> f64
    ensures { result ≡ Float.clamp x min max }
{
    let y = if x < min { min } else { x };
    if y > max { max } else { y }
}

// f64::rem_euclid
// Stays: the library's is by `%`, which compiled code takes from the C library as fmod@GLIBC_2.38: a machine with an
// older one runs no program of ours.
#[tactic(auto, unfolding(crate::specs::Float::rem_euclid))]
pub fn rem_euclid(x: f64, rhs: f64) -> f64
    ensures { result ≡ Float.rem_euclid x rhs }
{
    let r = remainder::remainder(x, rhs);
    if r < 0.0 { r + abs(rhs) } else { r }
}

// f64::to_bits of a number; 0 at a NaN.
#[tactic(auto, unfolding(crate::specs::Float::number_bits))]
pub fn number_bits(x: f64) -> u64
    ensures { result ≡ number_bits x }
{
    if x.is_nan() { 0 } else { x.to_bits() }
}

// Whether x is below y, or y alone is not a number: 0 and -0 alike, a NaN last.
pub fn is_before(x: f64, y: f64) -> bool
    ensures { result ≡ is_before x y }
{
    (x < y) | !x.is_nan() & y.is_nan()
}

// Whether f64::total_cmp of x and y is Less, a NaN taken as positive.
// Stays: the library's total_cmp takes no NaN; behind two tests of NaN it seeks the least of 16 in 43 ns in place of
// 22.
#[tactic(auto, using(crate::proofs::Cases::sign_is, crate::proofs::Cases::equal_number), unfolding(crate::specs::Float::is_total_before))]
pub fn is_total_before(x: f64, y: f64) -> bool
    ensures { result ≡ Float.is_total_before x y }
{
    if x == y {
        x.is_sign_negative() & !y.is_sign_negative()
    } else {
        is_before(x, y)
    }
}
