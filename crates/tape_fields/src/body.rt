// Words and floats of a record's body, and the ranges of floats. A word past the end reads as 0: a short body is
// refused before it counts.
ghost use Rattle.std.specs.Prelude.{◌≡◌, ◌+◌, ◌*◌, ◌^◌, get_or};
ghost use Rattle.std.specs.Float.Ieee.{of_bits};
ghost use Rattle.std.specs.Float.{binary64};
ghost use Rattle.tape_fields.specs.Fields.{float_at, is_raw_zero_at, is_outside_size, is_outside_from_zero, is_outside_above_zero};

use float::{abs, is_finite};

pub fn word_at(words: &[u32], at: usize) -> u32
    ensures { result ≡ get_or words.now at 0 }
{
    words.get(at).copied().unwrap_or(0)
}

// The float of two halves. `from_bits` is not defined at a NaN's pattern, which with the sign off is above the
// infinity's.
fn float_of(high: u32, low: u32) -> f64
    ensures { result ≡ of_bits binary64 (high * 2 ^ 32 + low) }
{
    let bits = (high as u64) * 0x1_0000_0000 + (low as u64);
    if bits % 0x8000_0000_0000_0000 > 0x7ff0_0000_0000_0000 {
        return f64::NAN;
    }
    f64::from_bits(bits)
}

// The float at word `at`, high half first.
#[tactic(auto, unfolding(crate::specs::Fields::float_at))]
pub fn float_at(words: &[u32], at: u8) -> f64
    ensures { result ≡ float_at words.now at }
{
    let high = at as usize;
    float_of(word_at(words, high), word_at(words, high + 1))
}

// Whether the two words of a float have no bit set.
#[tactic(auto, unfolding(crate::specs::Fields::is_raw_zero_at))]
pub fn is_raw_zero_at(words: &[u32], at: u8) -> bool
    ensures { result ≡ is_raw_zero_at words.now at }
{
    let high = at as usize;
    (word_at(words, high) == 0) & (word_at(words, high + 1) == 0)
}

// Stays: the three below are not `!(-most..=most).contains(&x)` and its like. They promise an answer for every
// `most`: an infinite `x` is outside where `most` is infinite too, and a NaN for `most` puts no finite `x` above it.
// `contains` says otherwise of both, and a public function asks no condition.

// Not finite, or above `most` in size.
pub fn is_outside_size(x: f64, most: f64) -> bool
    ensures { result ≡ is_outside_size x most }
{
    !is_finite(x) | (abs(x) > most)
}

// Not finite, or not from 0 to `most`.
pub fn is_outside_from_zero(x: f64, most: f64) -> bool
    ensures { result ≡ is_outside_from_zero x most }
{
    !is_finite(x) | (x < 0.0) | (x > most)
}

// 0 itself, or outside from 0 to `most`.
#[tactic(auto, using(crate::proofs::Ranges::above_zero))]
pub fn is_outside_above_zero(x: f64, most: f64) -> bool
    ensures { result ≡ is_outside_above_zero x most }
{
    (x == 0.0) | is_outside_from_zero(x, most)
}
