// The record call: one record of a tape, checked in the paper's order and done. What knows no loop is in record_kinds.
#![tactic(auto)]

ghost use Rattle.std.specs.Prelude.{◌≡◌, ℕ, List, Err, true};
ghost use Rattle.record.specs.Record as Call;
ghost use Rattle.record.specs.Says.{AnswersSay};
ghost use Rattle.record_kinds.specs.Kinds.{change_by};

use doors_calls::clear_hall_calls;
use doors_commands::has_rider_traversing;
use doors_turn::{door_turn, has_turn};
use log_words::Event;
use log_writes::Log;
use move_arrival::{is_direction_asked, lamps_on_arrival};
use move_by_trip::{arrive, distance_by};
use move_landing::{landing, leader_position};
use move_trip::{has_trip, trip_of};
use move_turn::sort::SortedStops;
use move_turn::words::emit_turn;
use record_kinds::{change, take_tick};
use tape::decode;
use tape_records::{Found, Record};
use turn::line_of;
use world::World;
use world::refusal::Refusal;
use world_sound::is_broken;

// An accepted record: the words used and the log words written.
#[derive(Clone, Copy, Default)]
pub struct Accepted {
    pub used: usize,
    pub written: usize,
}

// The answer: an accepted record, or one refusal.
pub type Answer = Result<Accepted, Refusal>;

// The answer, and the world after the call: on a refusal the one that was given.
#[derive(Clone, Copy)]
pub struct Recorded {
    pub answer: Answer,
    pub world: World,
}

// A refusal: the world is the one that was given.
fn refused(world: World, refusal: Refusal) -> Recorded
    ensures { (result.answer ≡ Err refusal) × (result.world ≡ world) }
{
    Recorded {
        answer: Err(refusal),
        world,
    }
}

// What a record gives that writes no word. The hint keeps its worlds out of the tick, where they would be cleared:
// 100 ns a tick.
#[inline(never)]
fn answered(world: World, found: Record, used: usize) -> Recorded
    ensures { (log : List ℕ) → Call.Gives result log (Call.change_outcome world log used (change_by world found)) }
{
    match change(world, found) {
        Ok(next) => Recorded {
            answer: Ok(Accepted { used, written: 0 }),
            world: next,
        },
        Err(refusal) => refused(world, refusal),
    }
}

// One record call: refusal 0; every record but the tick; then one tick, as systems/movement.rs and systems/doors.rs
// have it. The loops stand in one function: between two the world of 5.6 KB would be copied.
pub fn record(world: World, words: &[u32], log: &mut [u32]) -> Recorded
    ensures { Call.Gives result log.new (Call.record_of world words.now log.old) }
{
    // 1. refusal 0
    let mut w = world;
    if is_broken(&w) {
        return refused(w, Refusal::BrokenWorld);
    }
    // 2. refusals 1 to 12, and every record but the tick
    let read = match decode(words) {
        Ok(read) => read,
        Err(refusal) => return refused(w, refusal),
    };
    let dt = match read.found {
        Found::Change(found) => return answered(w, found, read.used),
        Found::Tick { dt } => dt,
    };
    if let Err(refusal) = take_tick(&w, log.len()) {
        return refused(w, refusal);
    }
    // 3. the tick's word; systems/movement.rs, run: car by car, each on positions already updated in this tick. A car
    // at rest is left alone.
    let cars = w.cars.count.min(16);
    let sort = SortedStops::new(&w.stops);
    let mut log = Log::new(log);
    log.emit(Event::TickMade { tick: w.ticks });
    // Stays: by the number. Each turn writes the table of cars that the next one reads, and an iterator would borrow
    // it for the whole loop.
    for i in 0..cars {
        let car = w.cars.items[i];
        let trip = trip_of(car);
        if has_trip(trip) {
            let number = i as u8;
            let kind = line_of(&w.lines.items, car.line).kind;
            let leader = leader_position(kind, &w.cars, i, car);
            let landed = landing(trip, kind, leader, car, &w.stops.items, dt);
            let lamps = if is_direction_asked(trip, kind, landed.arrived) {
                lamps_on_arrival(trip, &w.riders, car, &w.stops.items, number)
            } else {
                car.lamps
            };
            let moves = emit_turn(&mut log, number, trip, kind, car, landed, lamps, &sort);
            let new = landed.motion;
            w.cars.items[i].motion = new;
            w.cars.items[i].move_count = car.move_count.wrapping_add(moves);
            w.total_moves = w.total_moves.wrapping_add(moves);
            w.reposition_distance = distance_by(trip, kind, w.reposition_distance, car.motion, new);
            if landed.arrived {
                w.cars.items[i] = arrive(w.cars.items[i], trip, lamps, w.ticks);
            }
        }
    }
    // 4. doors.rs, run: commands, then the door's tick, car by car; then the hall calls clear
    let mut just_opened = [None; 16];
    // Stays: by the number too, as a turn writes two tables at one place and names it: `enumerate` of `zip` of two
    // `iter_mut` would name three things for `i`.
    for i in 0..cars {
        if has_turn(&w.cars.items[i]) {
            let mut car = w.cars.items[i];
            let number = i as u8;
            let line = line_of(&w.lines.items, car.line);
            let traversing = car.door_command_queue.count != 0
                && has_rider_traversing(&w.riders, number);
            just_opened[i] = door_turn(&mut log, number, &mut car, line, traversing, &w.stops);
            w.cars.items[i] = car;
        }
    }
    w.calls = clear_hall_calls(&mut log, &just_opened[..cars], w.calls);
    w.ticks = w.ticks.wrapping_add(1);
    Recorded {
        answer: Ok(Accepted {
            used: read.used,
            written: log.at,
        }),
        world: w,
    }
}

// Carries the claim on the numbers that answers say.
#[tactic(auto, using(crate::proofs::Saying::answers_say))]
pub fn answers_say() -> bool
    ensures { (result ≡ true) × AnswersSay }
{
    true
}
