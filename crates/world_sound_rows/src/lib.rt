// Refusal 0, a row of a table at a time: whether a line, car or rider has a count, a queue, a counter or a number
// that records never make.
#![tactic(auto)]

ghost use Rattle.std.specs.Prelude.{◌≡◌, ◌||◌, false};
ghost use Rattle.std.specs.List.{fold};
ghost use Rattle.world_sound_rows.specs.Rows as Rows;

use world::{Car, ElevatorPhase, Line, Rider, RiderPhase};

// Whether a number is not loaded: not below the count of its table.
pub fn is_unloaded(loaded: usize, number: u8) -> bool
    ensures { result ≡ Rows.is_unloaded loaded number }
{
    loaded <= number as usize
}

// Whether a stop or a car is named that is not loaded.
fn is_option_unloaded(loaded: usize, number: Option<u8>) -> bool
    ensures { result ≡ Rows.is_stop_unloaded loaded number }
{
    number.is_some_and(|n| is_unloaded(loaded, n))
}

fn is_phase_unloaded(stops: usize, phase: ElevatorPhase) -> bool
    ensures { result ≡ Rows.is_phase_unloaded stops phase }
{
    matches!(phase, ElevatorPhase::MovingToStop(s) | ElevatorPhase::Repositioning(s) if is_unloaded(stops, s))
}

fn is_rider_phase_unloaded(cars: usize, phase: RiderPhase) -> bool
    ensures { result ≡ Rows.is_rider_phase_unloaded cars phase }
{
    matches!(phase, RiderPhase::Boarding(i) | RiderPhase::Riding(i) | RiderPhase::Exiting(i) if is_unloaded(cars, i))
}

// Whether one of the numbers is not loaded.
// Stays: a fold and no `any`, with which refusal 0 took twice the time: no test ends the search early, so it goes
// over several numbers at a time.
fn has_unloaded(numbers: &[u8], loaded: usize) -> bool
    ensures { result ≡ fold (λ found n. found || Rows.is_unloaded loaded n) false numbers.now }
{
    numbers
        .iter()
        .fold(false, |found, n| found | is_unloaded(loaded, *n))
}

// Whether a line has more listed stops than its table holds, or one that is not loaded.
#[tactic(auto, unfolding(crate::specs::Rows::is_line_broken))]
pub fn is_line_broken(stops: usize, line: Line) -> bool
    ensures { result ≡ Rows.is_line_broken stops line }
{
    let listed = line.serves.stops;
    64 < listed.count || has_unloaded(listed.as_slice(), stops)
}

// Whether a car has a queue, a counter or a number that records never make.
#[tactic(auto, unfolding(crate::specs::Rows::is_car_broken))]
pub fn is_car_broken(lines: usize, stops: usize, car: Car) -> bool
    ensures { result ≡ Rows.is_car_broken lines stops car }
{
    let queue = car.destination_queue;
    8 < queue.count
        || (8 < car.door_command_queue.count)
            | (0x1_0000_0000_0000 <= car.move_count)
            | is_unloaded(lines, car.line)
            | is_phase_unloaded(stops, car.phase)
            | is_option_unloaded(stops, car.target_stop)
            | has_unloaded(queue.as_slice(), stops)
}

// Whether a rider names a stop or a car that is not loaded.
#[tactic(auto, unfolding(crate::specs::Rows::is_rider_broken))]
pub fn is_rider_broken(stops: usize, cars: usize, rider: Rider) -> bool
    ensures { result ≡ Rows.is_rider_broken stops cars rider }
{
    is_option_unloaded(stops, rider.destination)
        | is_rider_phase_unloaded(cars, rider.phase)
        | is_option_unloaded(cars, rider.aboard)
}
