// f64's methods and the formulas that motion does not export, on plain numbers.
ghost use Rattle.std.specs.Prelude.{◌≡◌};
ghost use Rattle.float.specs.Float as Float;
ghost use Rattle.motion_velocity.specs.Velocity as Velocity;

use float::{abs, clamp, is_finite, is_total_before, max, min, rem_euclid, signum};
use motion_velocity::fp::fma;
use motion_velocity::manual_velocity;

#[unsafe(no_mangle)]
pub extern "C" fn float_abs(x: f64) -> f64
    ensures { result ≡ Float.abs x }
{
    abs(x)
}

#[unsafe(no_mangle)]
pub extern "C" fn float_signum(x: f64) -> f64
    ensures { result ≡ Float.signum x }
{
    signum(x)
}

#[unsafe(no_mangle)]
pub extern "C" fn float_is_finite(x: f64) -> bool
    ensures { result ≡ Float.is_finite x }
{
    is_finite(x)
}

#[unsafe(no_mangle)]
pub extern "C" fn float_max(x: f64, y: f64) -> f64
    ensures { result ≡ Float.max x y }
{
    max(x, y)
}

#[unsafe(no_mangle)]
pub extern "C" fn float_min(x: f64, y: f64) -> f64
    ensures { result ≡ Float.min x y }
{
    min(x, y)
}

#[unsafe(no_mangle)]
pub extern "C" fn float_clamp(x: f64, least: f64, most: f64) -> f64
    ensures { result ≡ Float.clamp x least most }
{
    clamp(x, least, most)
}

#[unsafe(no_mangle)]
pub extern "C" fn float_rem_euclid(x: f64, rhs: f64) -> f64
    ensures { result ≡ Float.rem_euclid x rhs }
{
    rem_euclid(x, rhs)
}

#[unsafe(no_mangle)]
pub extern "C" fn float_total_before(x: f64, y: f64) -> bool
    ensures { result ≡ Float.is_total_before x y }
{
    is_total_before(x, y)
}

#[unsafe(no_mangle)]
pub extern "C" fn motion_fma(a: f64, b: f64, c: f64) -> f64
    ensures { result ≡ Velocity.fma a b c }
{
    fma(a, b, c)
}

#[unsafe(no_mangle)]
pub extern "C" fn motion_manual_velocity(
    target: f64,
    vel: f64,
    max_speed: f64,
    accel: f64,
    decel: f64,
    dt: f64,
) -> f64
    ensures { result ≡ Velocity.manual_velocity target vel max_speed accel decel dt }
{
    manual_velocity(target, vel, max_speed, accel, decel, dt)
}
