// Where a tick takes a car: systems/movement.rs, the motion of run and of tick_manual.
#![tactic(auto)]

ghost use Rattle.std.specs.Prelude.{◌≡◌};
ghost use Rattle.move_landing.specs.Landing as Landing;

use float::{EPSILON, abs};
use motion::cyclic::wrap_position;
use motion::movement::{
    MovementResult, headway_clamp_target, moved_to, tick_movement, tick_movement_cyclic,
};
use motion_velocity::fp::fma;
use motion_velocity::manual_velocity;
use move_leader::loop_leader_pos;
use move_trip::Trip;
use stops_lookup::stops::stop_position;
use turn::is_inspection;
use world::{Car, LineKind, Motion, Table};

// Inspection multiplies max speed by the factor.
fn max_speed(car: Car) -> f64
    ensures { result ≡ Landing.max_speed_of car }
{
    if is_inspection(car.service_mode) {
        return car.motion.max_speed * car.motion.inspection_speed_factor;
    }
    car.motion.max_speed
}

// Stays: `leader` stands beside `kind` in four functions, though only a loop has a leader: run looks it up among all
// cars and the line says no more than where, so a kind with its leader would be a second type of line, made for this
// call alone.

// run, `effective_target`.
fn effective_target(
    leader: Option<f64>,
    pos: f64,
    target: f64,
    headway: f64,
    circumference: f64,
) -> f64
    ensures { result ≡ Landing.effective_target leader pos target headway circumference }
{
    leader.map_or(target, |lp| {
        headway_clamp_target(pos, lp, target, headway, circumference)
    })
}

// The car's motion record after a tick, and whether the car has arrived.
#[derive(Clone, Copy)]
pub struct Landed {
    pub motion: Motion,
    pub arrived: bool,
}

// The motion record where a formula has brought it.
fn land(m: Motion, r: MovementResult) -> Landed
    ensures { result ≡ Landing.land m r }
{
    Landed {
        motion: Motion {
            position: r.position,
            velocity: r.velocity,
            ..m
        },
        arrived: r.arrived,
    }
}

// run, `result`.
fn result_by(
    kind: LineKind,
    leader: Option<f64>,
    m: Motion,
    max_speed: f64,
    target: f64,
    dt: f64,
) -> Landed
    ensures { result ≡ Landing.result_by kind leader m max_speed target dt }
{
    let r = match kind {
        LineKind::Linear => tick_movement(
            m.position,
            m.velocity,
            target,
            max_speed,
            m.acceleration,
            m.deceleration,
            dt,
        ),
        LineKind::Loop {
            circumference,
            min_headway,
        } => tick_movement_cyclic(
            m.position,
            m.velocity,
            effective_target(leader, m.position, target, min_headway, circumference),
            max_speed,
            m.acceleration,
            m.deceleration,
            dt,
            circumference,
        ),
    };
    land(m, r)
}

// The velocity of a landing that was pulled back to `clamped`.
fn held_velocity(clamped: f64, wrapped: f64, velocity: f64) -> f64
    ensures { result ≡ Landing.held_velocity clamped wrapped velocity }
{
    if abs(clamped - wrapped) > EPSILON {
        0.0
    } else {
        velocity
    }
}

// tick_manual on a loop: the landing behind the leader.
fn behind(
    leader: Option<f64>,
    m: Motion,
    wrapped: f64,
    velocity: f64,
    headway: f64,
    circumference: f64,
) -> Landed
    ensures { result ≡ Landing.behind leader m wrapped velocity headway circumference }
{
    match leader {
        None => land(m, moved_to(wrapped, velocity)),
        Some(lp) => {
            let clamped = headway_clamp_target(m.position, lp, wrapped, headway, circumference);
            land(
                m,
                moved_to(clamped, held_velocity(clamped, wrapped, velocity)),
            )
        }
    }
}

// tick_manual, from `raw_new_pos` on.
fn driven_by(kind: LineKind, leader: Option<f64>, m: Motion, raw: f64, velocity: f64) -> Landed
    ensures { result ≡ Landing.driven_by kind leader m raw velocity }
{
    match kind {
        LineKind::Linear => land(m, moved_to(raw, velocity)),
        LineKind::Loop {
            circumference,
            min_headway,
        } => behind(
            leader,
            m,
            wrap_position(raw, circumference),
            velocity,
            min_headway,
            circumference,
        ),
    }
}

// tick_manual: position and velocity.
fn driven(kind: LineKind, leader: Option<f64>, m: Motion, wanted: f64, dt: f64) -> Landed
    ensures { result ≡ Landing.driven kind leader m wanted dt }
{
    let velocity = manual_velocity(
        wanted,
        m.velocity,
        m.max_speed,
        m.acceleration,
        m.deceleration,
        dt,
    );
    driven_by(kind, leader, m, fma(velocity, dt, m.position), velocity)
}

// A car's landing, by its trip.
pub fn landing(
    trip: Trip,
    kind: LineKind,
    leader: Option<f64>,
    car: Car,
    stops: &[f64; 64],
    dt: f64,
) -> Landed
    ensures { result ≡ Landing.landing trip kind leader car stops.now dt }
{
    let m = car.motion;
    match trip {
        Trip::Rests => Landed {
            motion: m,
            arrived: false,
        },
        Trip::Drives => {
            let wanted = car.manual_target_velocity.unwrap_or(0.0);
            driven(kind, leader, m, wanted, dt)
        }
        Trip::GoesTo(s) | Trip::Repositions(s) => {
            result_by(kind, leader, m, max_speed(car), stop_position(stops, s), dt)
        }
    }
}

// The leader of a car, by its line's kind.
pub fn leader_position(kind: LineKind, cars: &Table<Car, 16>, i: usize, car: Car) -> Option<f64>
    ensures { result ≡ Landing.leader_position kind cars.now i car }
{
    match kind {
        LineKind::Linear => None,
        LineKind::Loop { circumference, .. } => loop_leader_pos(
            cars,
            i,
            car.line,
            car.motion.position,
            circumference,
        ),
    }
}
