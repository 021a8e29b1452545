// movement.rs: one tick of a trapezoidal velocity profile, on a line and on a loop.
ghost use Rattle.std.specs.Prelude.{◌≡◌};
ghost use Rattle.motion.specs.Movement as Movement;

use crate::cyclic::{forward_distance, is_degenerate, wrap_position};
use float::{EPSILON, abs, is_finite, max, signum};
use motion_velocity::fp::fma;
use motion_velocity::new_velocity;

// The distance in which a car brakes to a stop; 0 where the rate is 0 or below.
#[tactic(auto, unfolding(crate::specs::Movement::braking_distance))]
pub fn braking_distance(velocity: f64, deceleration: f64) -> f64
    ensures { result ≡ Movement.braking_distance velocity deceleration }
{
    if deceleration <= 0.0 {
        return 0.0;
    }
    let speed = abs(velocity);
    speed * speed / (2.0 * deceleration)
}

// What one tick gives.
#[repr(C)]
#[derive(Clone, Copy, PartialEq)]
pub struct MovementResult {
    pub position: f64,
    pub velocity: f64,
    pub arrived: bool,
}

// What it gives on arrival.
fn arrived_at(target: f64) -> MovementResult
    ensures { result ≡ Movement.arrived_at target }
{
    MovementResult {
        position: target,
        velocity: 0.0,
        arrived: true,
    }
}

// What it gives where the car has not arrived.
pub fn moved_to(position: f64, velocity: f64) -> MovementResult
    ensures { result ≡ Movement.moved_to position velocity }
{
    MovementResult {
        position,
        velocity,
        arrived: false,
    }
}

// One tick towards a target on a line.
// Stays: here and below the parameters are the Rust's, in its order, as the exported functions have them.
#[tactic(auto, unfolding(crate::specs::Movement::tick_movement))]
pub fn tick_movement(
    position: f64,
    velocity: f64,
    target_position: f64,
    max_speed: f64,
    acceleration: f64,
    deceleration: f64,
    dt: f64,
) -> MovementResult
    ensures { result ≡ Movement.tick_movement
        position velocity target_position max_speed acceleration deceleration dt }
{
    let displacement = target_position - position;
    if (abs(displacement) < EPSILON) & (abs(velocity) < EPSILON) {
        return arrived_at(target_position);
    }
    let sign = signum(displacement);
    let new_velocity = new_velocity(
        displacement,
        sign,
        velocity,
        max_speed,
        acceleration,
        deceleration,
        dt,
    );
    let new_pos = fma(new_velocity, dt, position);
    let new_displacement = target_position - new_pos;
    if (abs(new_displacement) < EPSILON) | (abs(signum(new_displacement) - sign) > EPSILON) {
        return arrived_at(target_position);
    }
    moved_to(new_pos, new_velocity)
}

// One tick towards a target on a loop, forward only, the position wrapped into [0, circumference).
#[tactic(auto, unfolding(crate::specs::Movement::tick_movement_cyclic))]
pub fn tick_movement_cyclic(
    position: f64,
    velocity: f64,
    target_position: f64,
    max_speed: f64,
    acceleration: f64,
    deceleration: f64,
    dt: f64,
    circumference: f64,
) -> MovementResult
    ensures { result ≡ Movement.tick_movement_cyclic
        position velocity target_position max_speed acceleration deceleration dt circumference }
{
    if is_degenerate(circumference) {
        return moved_to(position, 0.0);
    }
    let pos = wrap_position(position, circumference);
    let target = wrap_position(target_position, circumference);
    let fwd = forward_distance(pos, target, circumference);
    let linear = tick_movement(
        0.0,
        velocity,
        fwd,
        max_speed,
        acceleration,
        deceleration,
        dt,
    );
    if linear.arrived {
        return arrived_at(target);
    }
    let new_pos = wrap_position(pos + linear.position, circumference);
    moved_to(new_pos, linear.velocity)
}

// The target of a trailing car: the intended one, or `min_headway` behind its leader where that comes first.
#[tactic(auto, unfolding(crate::specs::Movement::headway_clamp_target))]
pub fn headway_clamp_target(
    trailer_position: f64,
    leader_position: f64,
    intended_target: f64,
    min_headway: f64,
    circumference: f64,
) -> f64
    ensures { result ≡ Movement.headway_clamp_target
        trailer_position leader_position intended_target min_headway circumference }
{
    if is_degenerate(circumference) | !is_finite(min_headway) {
        return intended_target;
    }
    let trailer = wrap_position(trailer_position, circumference);
    let leader = wrap_position(leader_position, circumference);
    let intended = wrap_position(intended_target, circumference);
    let gap = forward_distance(trailer, leader, circumference);
    let safe_advance = max(gap - min_headway, 0.0);
    let intended_advance = forward_distance(trailer, intended, circumference);
    if intended_advance <= safe_advance {
        intended
    } else {
        wrap_position(trailer + safe_advance, circumference)
    }
}
