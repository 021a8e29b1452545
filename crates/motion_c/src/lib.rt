// The formulas of motion for C: each export calls the function of its name.
#![tactic(auto)]

ghost use Rattle.std.specs.Prelude.{◌≡◌};
ghost use Rattle.motion.specs.Cyclic as Cyclic;
ghost use Rattle.motion.specs.Movement as Movement;

use motion::movement::MovementResult;
use motion::{cyclic, movement};

// Stays: here and below a function a formula: C calls each by its name, on plain numbers.

// A position brought into [0, circumference); unchanged where there is no circle or the position is not finite.
#[unsafe(no_mangle)]
pub extern "C" fn wrap_position(p: f64, circumference: f64) -> f64
    ensures { result ≡ Cyclic.wrap_position p circumference }
{
    cyclic::wrap_position(p, circumference)
}

// The one-way distance ahead from `from` to `to`; 0 where there is no circle or a position is not finite.
#[unsafe(no_mangle)]
pub extern "C" fn forward_distance(from: f64, to: f64, circumference: f64) -> f64
    ensures { result ≡ Cyclic.forward_distance from to circumference }
{
    cyclic::forward_distance(from, to, circumference)
}

// The shorter way between a and b, in either direction.
#[unsafe(no_mangle)]
pub extern "C" fn cyclic_distance(a: f64, b: f64, circumference: f64) -> f64
    ensures { result ≡ Cyclic.cyclic_distance a b circumference }
{
    cyclic::cyclic_distance(a, b, circumference)
}

// The distance in which a car brakes to a stop; 0 where the rate is 0 or below.
#[unsafe(no_mangle)]
pub extern "C" fn braking_distance(velocity: f64, deceleration: f64) -> f64
    ensures { result ≡ Movement.braking_distance velocity deceleration }
{
    movement::braking_distance(velocity, deceleration)
}

// One tick towards a target on a line.
#[unsafe(no_mangle)]
pub extern "C" fn tick_movement(
    position: f64,
    velocity: f64,
    target_position: f64,
    max_speed: f64,
    acceleration: f64,
    deceleration: f64,
    dt: f64,
) -> MovementResult
    ensures { result ≡ Movement.tick_movement
        position velocity target_position max_speed acceleration deceleration dt }
{
    movement::tick_movement(
        position,
        velocity,
        target_position,
        max_speed,
        acceleration,
        deceleration,
        dt,
    )
}

// One tick towards a target on a loop, forward only, the position wrapped into [0, circumference).
#[unsafe(no_mangle)]
pub extern "C" fn tick_movement_cyclic(
    position: f64,
    velocity: f64,
    target_position: f64,
    max_speed: f64,
    acceleration: f64,
    deceleration: f64,
    dt: f64,
    circumference: f64,
) -> MovementResult
    ensures { result ≡ Movement.tick_movement_cyclic
        position velocity target_position max_speed acceleration deceleration dt circumference }
{
    movement::tick_movement_cyclic(
        position,
        velocity,
        target_position,
        max_speed,
        acceleration,
        deceleration,
        dt,
        circumference,
    )
}

// The target of a trailing car: the intended one, or `min_headway` behind its leader where that comes first.
#[unsafe(no_mangle)]
pub extern "C" fn headway_clamp_target(
    trailer_position: f64,
    leader_position: f64,
    intended_target: f64,
    min_headway: f64,
    circumference: f64,
) -> f64
    ensures { result ≡ Movement.headway_clamp_target
        trailer_position leader_position intended_target min_headway circumference }
{
    movement::headway_clamp_target(
        trailer_position,
        leader_position,
        intended_target,
        min_headway,
        circumference,
    )
}
