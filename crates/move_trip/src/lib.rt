// A car's trip in a tick: which way it goes, and what it sweeps over.
#![tactic(auto)]

pub mod span; // what it sweeps over

ghost use Rattle.std.specs.Prelude.{◌≡◌};
ghost use Rattle.move_trip.specs.Trips as Trips;

use float::abs;
use motion::cyclic::forward_distance;
use world::{Car, ElevatorPhase, LineKind, ServiceMode};

// Which way a car goes in a tick.
#[derive(Clone, Copy, PartialEq, Eq)]
pub enum Trip {
    Rests,
    Drives,
    GoesTo(u8),
    Repositions(u8),
}

fn trip_by(phase: ElevatorPhase) -> Trip
    ensures { result ≡ Trips.trip_by phase }
{
    match phase {
        ElevatorPhase::MovingToStop(s) => Trip::GoesTo(s),
        ElevatorPhase::Repositioning(s) => Trip::Repositions(s),
        _ => Trip::Rests,
    }
}

// run's first tests.
pub fn trip_of(car: Car) -> Trip
    ensures { result ≡ Trips.trip_of car }
{
    if !car.enabled {
        return Trip::Rests;
    }
    if car.service_mode == ServiceMode::Manual {
        return Trip::Drives;
    }
    trip_by(car.phase)
}

// Stays: one comparison, as an entry with a promise of its own: the record call asks it of every car.
pub fn has_trip(trip: Trip) -> bool
    ensures { result ≡ Trips.has_trip trip }
{
    trip != Trip::Rests
}

pub fn is_loop(kind: LineKind) -> bool
    ensures { result ≡ Trips.is_loop kind }
{
    matches!(kind, LineKind::Loop { .. })
}

// run, `dist`.
pub fn travelled(kind: LineKind, old: f64, new: f64) -> f64
    ensures { result ≡ Trips.travelled kind old new }
{
    match kind {
        LineKind::Linear => abs(new - old),
        LineKind::Loop { circumference, .. } => forward_distance(old, new, circumference),
    }
}

pub fn distance_after(distance: f64, travelled: f64) -> f64
    ensures { result ≡ Trips.distance_after distance travelled }
{
    if travelled > 0.0 {
        distance + travelled
    } else {
        distance
    }
}
