// What a car does that comes to its stop: systems/movement.rs, direction_from_remaining_work and the queue's front.
#![tactic(auto)]

ghost use Rattle.std.specs.Prelude.{◌≡◌, min};
ghost use Rattle.move_arrival.specs.Arrival as Arrival;

use move_trip::{Trip, is_loop};
use stops_lookup::stops::stop_position;
use world::{Car, Lamps, LineKind, Queue, Rider, Table};

// needs_up and needs_down with one more position.
fn needing(mut lamps: Lamps, position: f64, stop: f64) -> Lamps
    ensures { result ≡ Arrival.needing lamps position stop }
{
    // Stays: with a literal of `..lamps` each rider costs both tests, and a tenth more instructions in all.
    if position > stop {
        lamps.going_up = true;
    } else if position < stop {
        lamps.going_down = true;
    }
    lamps
}

// With one more rider, where it is aboard the car and has a destination.
fn needing_rider(rider: &Rider, lamps: Lamps, stops: &[f64; 64], number: u8, stop: f64) -> Lamps
    ensures { result ≡ Arrival.needing_rider rider.now lamps stops.now number stop }
{
    if rider.aboard != Some(number) {
        return lamps;
    }
    match rider.destination {
        Some(s) => needing(lamps, stop_position(stops, s), stop),
        None => lamps,
    }
}

// What the riders aboard need.
#[tactic(auto, using(crate::proofs::Needs::each_rider, std::proofs::lemmas::Grind::common_steps))]
fn riders_need(riders: &Table<Rider, 128>, stops: &[f64; 64], number: u8, stop: f64) -> Lamps
    ensures { result ≡ Arrival.riders_lamps_to riders.now.items stops.now number stop (min riders.now.count 128) }
{
    riders.as_slice().iter().fold(
        Lamps::NONE,
        |lamps, rider| needing_rider(rider, lamps, stops, number, stop),
    )
}

// What the riders and the queue need.
#[tactic(auto, using(crate::proofs::Needs::each_queued, std::proofs::lemmas::Grind::common_steps))]
fn queue_needs(queue: Queue<u8>, stops: &[f64; 64], riders: Lamps, stop: f64) -> Lamps
    ensures { result ≡ Arrival.queue_lamps_to queue stops.now riders stop (min queue.count 8) }
{
    queue.as_slice().iter().fold(
        riders,
        |lamps, s| needing(lamps, stop_position(stops, *s), stop),
    )
}

// Both where neither is needed.
fn both_if_none(lamps: Lamps) -> Lamps
    ensures { result ≡ Arrival.both_if_none lamps }
{
    if lamps == Lamps::NONE {
        return Lamps::BOTH;
    }
    lamps
}

// systems/movement.rs, direction_from_remaining_work
// Stays: riders beside stops: two tables of the world, each lent. A `&World` in their place would not say which of
// its tables count.
#[tactic(auto, unfolding(crate::specs::Arrival::direction_from_remaining_work))]
pub fn direction_from_remaining_work(
    riders: &Table<Rider, 128>,
    queue: Queue<u8>,
    stops: &[f64; 64],
    number: u8,
    stop: f64,
) -> Lamps
    ensures { result ≡ Arrival.direction_from_remaining_work riders.now queue stops.now number stop }
{
    let aboard = riders_need(riders, stops, number, stop);
    both_if_none(queue_needs(queue, stops, aboard, stop))
}

// Stays: written out, as the definition has it: `copy_within` would take a copy of the items, the move, and 0 for the
// last one.
fn shifted(q: [u8; 8]) -> [u8; 8]
    ensures { result ≡ Arrival.shifted q }
{
    [q[1], q[2], q[3], q[4], q[5], q[6], q[7], 0]
}

// The queue without its front, where that is the stop.
// Stays: of a car, whose queue it is, and asked by count and first item, as the definition has them beside the Rust's
// `queue.front()`.
#[tactic(auto, unfolding(crate::specs::Arrival::popped))]
pub fn popped(car: Car, s: u8) -> Queue<u8>
    ensures { result ≡ Arrival.popped car s }
{
    let queue = car.destination_queue;
    if (0 < queue.count) & (queue.items[0] == s) {
        return Queue {
            items: shifted(queue.items),
            count: queue.count - 1,
        };
    }
    queue
}

// Whether a turn asks for direction_from_remaining_work: it comes to a stop of a linear line. A loop car's lamps stay
// as they are.
pub fn is_direction_asked(trip: Trip, kind: LineKind, arrived: bool) -> bool
    ensures { result ≡ Arrival.is_direction_asked trip kind arrived }
{
    matches!(trip, Trip::GoesTo(_)) & arrived & !is_loop(kind)
}

// direction_from_remaining_work of a car that goes to a stop.
// Stays: it matches the trip again, which `is_direction_asked` has found: the record call asks first, so that riders
// are looked at only then, and the definition of a car's turn has both.
pub fn lamps_on_arrival(
    trip: Trip,
    riders: &Table<Rider, 128>,
    car: Car,
    stops: &[f64; 64],
    number: u8,
) -> Lamps
    ensures { result ≡ Arrival.lamps_on_arrival trip riders.now car stops.now number }
{
    match trip {
        Trip::GoesTo(s) => direction_from_remaining_work(
            riders,
            popped(car, s),
            stops,
            number,
            stop_position(stops, s),
        ),
        _ => car.lamps,
    }
}
