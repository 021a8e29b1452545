// Record calls for the bench: the first records of a tape, from the empty world on, and a sum over what they leave.
#![tactic(auto)]

ghost use Rattle.std.specs.Prelude.{◌≡◌, length};
ghost use Rattle.float.specs.Float.{number_bits};
ghost use Rattle.record.specs.Record.{used_of, written_of};
ghost use Rattle.laws.specs.Numbers.{plus};
ghost use Rattle.test_beside_ticks.specs.Bench as Bench;
ghost use Rattle.test_beside_ticks.specs.Bench.{played_to};
ghost use Rattle.test_beside_ticks.specs.Parts.{ProgressReached};

use float::number_bits;
use record::{Accepted, Answer, record};
use record_lent::record_in_place;
use world::empty::empty;
use world::{Car, World};

// Where the records ended: the world, the words of the tape that they used, the log words that they wrote.
#[derive(Clone, Copy)]
struct Played {
    world: World,
    used: usize,
    written: u64,
}

// What the record used and wrote, nothing where it was refused.
fn told_by(answer: Answer) -> Accepted
    ensures { (result.used ≡ used_of answer) × (result.written ≡ written_of answer) }
{
    answer.unwrap_or_default()
}

// By the call that takes the world by value.
#[tactic(auto, using(crate::proofs::Playing::begins))]
fn by_value(words: &[u32], log: &mut [u32], records: u64) -> Played
    ensures { ProgressReached (played_to words.now log.old records) result.world log.new result.used result.written }
{
    let mut world = empty();
    let mut used: usize = 0;
    let mut written: u64 = 0;
    for _ in 0..records {
        let made = record(world, &words[used..], log);
        world = made.world;
        let told = told_by(made.answer);
        used += told.used;
        written = written.wrapping_add(told.written as u64);
    }
    Played {
        world,
        used,
        written,
    }
}

// By the call that is lent the world.
// Stays: two loops. One over a trait of record calls makes and clears a world more in each turn: 21,700 instructions
// a tick in place of 11,200.
#[tactic(auto, using(crate::proofs::Playing::begins))]
fn by_lending(words: &[u32], log: &mut [u32], records: u64) -> Played
    ensures { ProgressReached (played_to words.now log.old records) result.world log.new result.used result.written }
{
    let mut world = empty();
    let mut used: usize = 0;
    let mut written: u64 = 0;
    for _ in 0..records {
        let told = told_by(record_in_place(&mut world, &words[used..], log));
        used += told.used;
        written = written.wrapping_add(told.written as u64);
    }
    Played {
        world,
        used,
        written,
    }
}

#[tactic(auto, unfolding(laws::specs::Numbers::plus))]
fn sum(car: &Car) -> u64
    ensures { result ≡ plus (number_bits car.now.motion.position) (number_bits car.now.motion.velocity) }
{
    number_bits(car.motion.position).wrapping_add(number_bits(car.motion.velocity))
}

#[tactic(auto, unfolding(crate::specs::Bench::cars_sum_to, laws::specs::Numbers::plus))]
fn sum_of_cars(cars: &[Car]) -> u64
    ensures { result ≡ Bench.cars_sum_to cars.now (length cars.now) }
{
    let mut total: u64 = 0;
    for car in cars {
        total = total.wrapping_add(sum(car));
    }
    total
}

// The sum of the cars' bits, the moves and the log words.
#[tactic(auto, unfolding(crate::specs::Bench::sum_of, laws::specs::Numbers::plus))]
fn sum_of(played: Played) -> u64
    ensures { result ≡ Bench.sum_of played.world played.written }
{
    let moves = played.world.total_moves.wrapping_add(played.written);
    sum_of_cars(&played.world.cars.items).wrapping_add(moves)
}

// So many records of the tape by the by-value call.
#[unsafe(no_mangle)]
#[tactic(auto, unfolding(crate::specs::Bench::bench_records))]
pub extern "C" fn bench_records(words: &[u32], records: u64) -> u64
    ensures { result ≡ Bench.bench_records words.now records }
{
    let mut log = [0u32; 2048];
    sum_of(by_value(words, &mut log, records))
}

// The same by the lent call.
#[unsafe(no_mangle)]
#[tactic(auto, unfolding(crate::specs::Bench::bench_records))]
pub extern "C" fn bench_lent_records(words: &[u32], records: u64) -> u64
    ensures { result ≡ Bench.bench_records words.now records }
{
    let mut log = [0u32; 2048];
    sum_of(by_lending(words, &mut log, records))
}
