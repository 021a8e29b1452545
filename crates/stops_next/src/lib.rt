// The next stop of a loop: dispatch/mod.rs.
#![tactic(auto)]

ghost use Rattle.std.specs.Prelude.{◌≡◌};
ghost use Rattle.stops_next.specs.NextStop.{ahead_of, nearer_stop, without_distance, loop_next_stop_forward, loop_next_stop_for_car};

use float::{EPSILON, is_finite};
use motion::cyclic::{forward_distance, is_degenerate};
use stops_lookup::stops::stop_position;
use world::{Line, LineKind, Table};

// How far a stop is ahead on a loop; the whole circle where the car stands at it.
#[tactic(auto, unfolding(crate::specs::NextStop::ahead_of))]
fn ahead_of(circumference: f64, position: f64, stop: f64) -> f64
    ensures { result ≡ ahead_of circumference position stop }
{
    let d = forward_distance(position, stop, circumference);
    if d <= EPSILON { circumference } else { d }
}

// The nearer of two stops with their distances, the earlier where neither is.
fn nearer_stop(best: Option<(f64, u8)>, d: f64, s: u8) -> Option<(f64, u8)>
    ensures { result ≡ nearer_stop best d s }
{
    match best {
        Some((distance, _)) if distance <= d => best,
        _ => Some((d, s)),
    }
}

// The stop, without its distance.
fn without_distance(best: Option<(f64, u8)>) -> Option<u8>
    ensures { result ≡ without_distance best }
{
    best.map(|(_, stop)| stop)
}

// dispatch/mod.rs, loop_next_stop_forward
#[tactic(auto, using(crate::proofs::Nearest::next_stop_turn), unfolding(crate::specs::NextStop::loop_next_stop_forward))]
pub fn loop_next_stop_forward(
    stops: &[f64; 64],
    circumference: f64,
    serves: &Table<u8, 64>,
    position: f64,
) -> Option<u8>
    ensures { result ≡ loop_next_stop_forward stops.now circumference serves.now position }
{
    if !is_finite(position) | is_degenerate(circumference) {
        return None;
    }
    let mut best = None;
    for &s in serves.as_slice() {
        let distance = ahead_of(circumference, position, stop_position(stops, s));
        best = nearer_stop(best, distance, s);
    }
    without_distance(best)
}

// dispatch/mod.rs, loop_next_stop_for_car
#[tactic(auto, unfolding(crate::specs::NextStop::loop_next_stop_for_car))]
pub fn loop_next_stop_for_car(line: Line, stops: &[f64; 64], position: f64) -> Option<u8>
    ensures { result ≡ loop_next_stop_for_car line stops.now position }
{
    match line.kind {
        LineKind::Loop { circumference, .. } if line.serves.listed => {
            loop_next_stop_forward(stops, circumference, &line.serves.stops, position)
        }
        _ => None,
    }
}
