// fp.rs with the feature deterministic-fp.
ghost use Rattle.std.specs.Prelude.{◌≡◌};
ghost use Rattle.motion_velocity.specs.Velocity as Velocity;

// A product rounded, then a sum rounded.
pub fn fma(a: f64, b: f64, c: f64) -> f64
    ensures { result ≡ Velocity.fma a b c }
{
    a * b + c
}
