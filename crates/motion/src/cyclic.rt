// components/cyclic.rs: positions and distances on a closed loop.
ghost use Rattle.std.specs.Prelude.{◌≡◌};
ghost use Rattle.motion.specs.Cyclic as Cyclic;

use float::{is_finite, min, rem_euclid};

// Whether there is no circle.
pub fn is_degenerate(circumference: f64) -> bool
    ensures { result ≡ Cyclic.is_degenerate circumference }
{
    !is_finite(circumference) | (circumference <= 0.0)
}

// A position brought into [0, circumference); unchanged where there is no circle or the position is not finite.
#[tactic(auto, using(crate::proofs::Inside::wrap_inside), unfolding(crate::specs::Cyclic::wrap_position))]
pub fn wrap_position(p: f64, circumference: f64) -> f64
    ensures { result ≡ Cyclic.wrap_position p circumference }
{
    if (0.0 <= p) & (p < circumference) {
        return p; // it lies in the circle already
    }
    if is_degenerate(circumference) | !is_finite(p) {
        return p;
    }
    let r = rem_euclid(p, circumference);
    if r >= circumference { 0.0 } else { r }
}

// The one-way distance ahead from `from` to `to`; 0 where there is no circle or a position is not finite.
#[tactic(auto, unfolding(crate::specs::Cyclic::forward_distance))]
pub fn forward_distance(from: f64, to: f64, circumference: f64) -> f64
    ensures { result ≡ Cyclic.forward_distance from to circumference }
{
    if is_degenerate(circumference) | !is_finite(from) | !is_finite(to) {
        return 0.0;
    }
    let from = wrap_position(from, circumference);
    let to = wrap_position(to, circumference);
    let d = to - from;
    if d < 0.0 { d + circumference } else { d }
}

// The shorter way between a and b, in either direction.
#[tactic(auto, unfolding(crate::specs::Cyclic::cyclic_distance))]
pub fn cyclic_distance(a: f64, b: f64, circumference: f64) -> f64
    ensures { result ≡ Cyclic.cyclic_distance a b circumference }
{
    if is_degenerate(circumference) {
        return 0.0;
    }
    let fwd = forward_distance(a, b, circumference);
    let back = circumference - fwd;
    min(fwd, back)
}
