// A velocity after a tick: movement.rs, tick_movement, and the velocity ramp of systems/movement.rs.
#![tactic(auto)]

pub mod fp; // fp.rs

ghost use Rattle.std.specs.Prelude.{◌≡◌};
ghost use Rattle.motion_velocity.specs.Velocity as Velocity;

use crate::fp::fma;
use float::{EPSILON, abs, clamp, max, signum};

// The arm of tick_movement that slows down; 0 where the sign would flip.
#[tactic(auto, unfolding(crate::specs::Velocity::decelerated))]
fn decelerated(velocity: f64, safe_decel: f64, dt: f64) -> f64
    ensures { result ≡ Velocity.decelerated velocity safe_decel dt }
{
    let v = fma(-safe_decel * dt, signum(velocity), velocity);
    if (velocity > 0.0) & (v < 0.0) | (velocity < 0.0) & (v > 0.0) {
        0.0
    } else {
        v
    }
}

// The arm of tick_movement that speeds up, to max_speed at most.
#[tactic(auto, unfolding(crate::specs::Velocity::accelerated))]
fn accelerated(velocity: f64, sign: f64, max_speed: f64, acceleration: f64, dt: f64) -> f64
    ensures { result ≡ Velocity.accelerated velocity sign max_speed acceleration dt }
{
    let v = fma(acceleration * dt, sign, velocity);
    if abs(v) > max_speed {
        sign * max_speed
    } else {
        v
    }
}

// tick_movement's new_velocity, its `sign` and `displacement` given.
// Stays: the parameters are those of tick_movement, in the Rust's order.
#[tactic(auto, unfolding(crate::specs::Velocity::new_velocity))]
pub fn new_velocity(
    displacement: f64,
    sign: f64,
    velocity: f64,
    max_speed: f64,
    acceleration: f64,
    deceleration: f64,
    dt: f64,
) -> f64
    ensures { result ≡ Velocity.new_velocity displacement sign velocity max_speed acceleration deceleration dt }
{
    let distance_remaining = abs(displacement);
    let speed = abs(velocity);
    let safe_decel = max(deceleration, EPSILON);
    let stopping_distance = speed * speed / (2.0 * safe_decel);
    let opposing = velocity * sign < 0.0;
    if opposing | (stopping_distance >= distance_remaining - EPSILON) {
        decelerated(velocity, safe_decel, dt)
    } else if speed < max_speed {
        accelerated(velocity, sign, max_speed, acceleration, dt)
    } else {
        sign * max_speed
    }
}

// tick_manual's new_vel: the velocity goes towards the manual speed `target`, by rate * dt at most.
// Stays: the parameters are the values that tick_manual computes with, by its names and in the order of new_velocity.
// A struct of them would be made for this call alone.
#[tactic(auto, unfolding(crate::specs::Velocity::manual_velocity))]
pub fn manual_velocity(
    target: f64,
    vel: f64,
    max_speed: f64,
    accel: f64,
    decel: f64,
    dt: f64,
) -> f64
    ensures { result ≡ Velocity.manual_velocity target vel max_speed accel decel dt }
{
    let target = clamp(target, -max_speed, max_speed);
    let slowing = (abs(target) < abs(vel)) | (signum(target) * signum(vel) < 0.0);
    let rate = if slowing { decel } else { accel };
    let dv_max = rate * dt;
    if abs(target - vel) <= dv_max {
        target
    } else if target > vel {
        vel + dv_max
    } else {
        vel - dv_max
    }
}
