// Stop look-ups: world.rs and dispatch/mod.rs. A count above its table is taken as the table's size.
ghost use Rattle.std.specs.Prelude.{◌≡◌};
ghost use Rattle.world.specs.World.{stop_position};
ghost use Rattle.stops_lookup.specs.Stops.{is_standing_at, find_stop_at_position, find_stop_at_position_in, elevator_line_serves};

use float::abs;
use world::{Line, Serves, Stops, Table};

const STOP_POSITION_EPSILON: f64 = 1e-6;

// world.rs, stop_position. Not a number past the table.
// Stays: the positions alone, here and where a stop is looked up by its number: what lies past the count is read too,
// and a `&Stops` would not say so.
#[tactic(auto, using(crate::proofs::Standing::past_the_table))]
pub fn stop_position(stops: &[f64; 64], s: u8) -> f64
    ensures { result ≡ stop_position stops.now s }
{
    stops.get(s as usize).copied().unwrap_or(f64::NAN)
}

// Whether a stop stands at a position.
#[tactic(auto, unfolding(crate::specs::Stops::is_standing_at))]
fn is_standing_at(stop: f64, position: f64) -> bool
    ensures { result ≡ is_standing_at stop position }
{
    abs(stop - position) < STOP_POSITION_EPSILON
}

// world.rs, find_stop_at_position
pub fn find_stop_at_position(stops: &Stops, position: f64) -> Option<u8>
    ensures { result ≡ find_stop_at_position stops.now position }
{
    stops
        .as_slice()
        .iter()
        .position(|stop| is_standing_at(*stop, position))
        .map(|s| s as u8)
}

// world.rs, find_stop_at_position_in
// Stays: beside the look-up above, as in the Rust. One function of both would take the candidates, all numbers or a
// list's, as a type parameter with a contract of its own, to share a chain of three calls.
pub fn find_stop_at_position_in(
    stops: &[f64; 64],
    position: f64,
    serves: &Table<u8, 64>,
) -> Option<u8>
    ensures { result ≡ find_stop_at_position_in stops.now position serves.now }
{
    serves
        .as_slice()
        .iter()
        .copied()
        .find(|s| is_standing_at(stop_position(stops, *s), position))
}

// dispatch/mod.rs, elevator_line_serves: an entry of the library, which no crate here calls.
#[tactic(auto, unfolding(crate::specs::Stops::elevator_line_serves))]
pub fn elevator_line_serves(lines: &[Line; 8], line: u8) -> Serves
    ensures { result ≡ elevator_line_serves lines.now line }
{
    lines.get(line as usize).map_or(Serves::NONE, |l| l.serves)
}
