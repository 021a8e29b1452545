// Reads kinds 1 to 4 of a tape, what a world is loaded with: line, stop, car, rider.
#![tactic(auto)]

ghost use Rattle.std.specs.Prelude.{IfOk, ◌≡◌, ◌≤◌, ◌+◌, ◌&&◌, ◌||◌, not, cond, ltb, eqb, length, Ok, Err};
ghost use Rattle.world.specs.declared.refusal.Refusal.TheVariants.{FieldOutside};
ghost use Rattle.tape_records.specs.Answers.{read_checked, is_not_stop, is_not_car};
ghost use Rattle.tape_loads.specs.LoadRecords.{serves_count, has_stop_outside, serves_to};
ghost use Rattle.tape_loads.specs.LoadRecords.{has_line_field_outside, line_kind_of, line_record};
ghost use Rattle.tape_loads.specs.LoadRecords.{stop_record, motion_at, has_motion_outside, car_record};
ghost use Rattle.tape_loads.specs.LoadRecords.{rider_body, is_phase_car_outside, rider_phase, rider_record};
ghost use Rattle.tape_loads.specs.LoadRecords.{car_option, stop_option};

use layout::Fields;
use tape_fields::body::{
    float_at, is_outside_above_zero, is_outside_from_zero, is_outside_size, is_raw_zero_at, word_at,
};
use tape_records::{Found, Read, Record, stop_in_range};
use world::refusal::{Refusal, refuse_if};
use world::{CarPlan, Line, LineKind, Motion, Rider, RiderPhase, Serves, Table};

// How many served stops follow: 65,535 stands for no list.
#[tactic(auto, unfolding(crate::specs::LoadRecords::serves_count))]
fn serves_count(v: u32) -> Result<usize, Refusal>
    ensures read_checked { result ≡ cond (ltb 64 v && not (eqb v 65535)) (Err FieldOutside) (Ok (serves_count v)) }
    ensures few { IfOk result (λ count. count ≤ 64) }
{
    match v {
        0..=64 => Ok(v as usize),
        65535 => Ok(0),
        _ => Err(Refusal::FieldOutside),
    }
}

// The first `count` served words in order as stops, and zeros; refused where one is no stop's number.
// Stays: the array alone, by `enumerate`. As a Table, pushed into, each push would answer an Option that its bound
// rules out.
#[tactic(auto, using(crate::proofs::Serves::served), unfolding(crate::specs::LoadRecords::has_stop_outside, crate::specs::LoadRecords::serves_to))]
fn serves_to(words: &[u32], count: usize) -> Result<[u8; 64], Refusal>
    requires { (count ≤ 64) × (5 + count ≤ length words.now) }
    ensures { result ≡ cond (has_stop_outside words.now count) (Err FieldOutside) (Ok (serves_to words.now count)) }
{
    let mut serves = [0u8; 64];
    for (i, word) in words[5..5 + count].iter().enumerate() {
        serves[i] = stop_in_range(*word)?;
    }
    Ok(serves)
}

// Stays: here and below head and words go side by side, as the paper has a head and a body; seven of the thirteen
// kinds have a head alone.

// The kind of a line: linear, with raw zero words, or a loop of the two floats.
#[tactic(auto, unfolding(crate::specs::LoadRecords::has_line_field_outside, crate::specs::LoadRecords::line_kind_of))]
fn line_kind(head: Fields, words: &[u32]) -> Result<LineKind, Refusal>
    ensures { result ≡
        cond (has_line_field_outside head words.now) (Err FieldOutside) (Ok (line_kind_of head words.now)) }
{
    refuse_if(head.n > 7, Refusal::FieldOutside)?;
    match head.s {
        0 if is_raw_zero_at(words, 1) && is_raw_zero_at(words, 3) => Ok(LineKind::Linear),
        1 => Ok(LineKind::Loop {
            circumference: float_at(words, 1),
            min_headway: float_at(words, 3),
        }),
        _ => Err(Refusal::FieldOutside),
    }
}

#[tactic(auto, unfolding(crate::specs::LoadRecords::has_line_field_outside, crate::specs::LoadRecords::has_line_float_outside, crate::specs::LoadRecords::line_kind_of, crate::specs::LoadRecords::line_record))]
pub fn decode_line(head: Fields, words: &[u32]) -> Result<Read, Refusal>
    ensures { result ≡ read_checked (line_record head words.now) }
{
    let count = serves_count(head.v)?;
    refuse_if(words.len() < 5 + count, Refusal::CutShort)?;
    let kind = line_kind(head, words)?;
    let items = serves_to(words, count)?;
    if let LineKind::Loop {
        circumference,
        min_headway,
    } = kind
    {
        let float_outside = is_outside_above_zero(circumference, 1000000.0)
            | is_outside_from_zero(min_headway, 1000000.0);
        refuse_if(float_outside, Refusal::FloatOutside)?;
    }
    let stops = Table { items, count };
    let serves = Serves {
        listed: head.v != 65535,
        stops,
    };
    let found = Found::Change(Record::Line {
        number: head.n,
        line: Line { kind, serves },
    });
    Ok(Read {
        found,
        used: 5 + count,
    })
}

pub fn decode_stop(head: Fields, words: &[u32]) -> Result<Read, Refusal>
    ensures { result ≡ read_checked (stop_record head words.now) }
{
    refuse_if(words.len() < 3, Refusal::CutShort)?;
    refuse_if((head.n != 0) | (head.v != 0), Refusal::FieldOutside)?;
    let number = stop_in_range(u32::from(head.s))?;
    let position = float_at(words, 1);
    refuse_if(is_outside_size(position, 1000000.0), Refusal::FloatOutside)?;
    let found = Found::Change(Record::Stop { number, position });
    Ok(Read { found, used: 3 })
}

fn motion_at(words: &[u32]) -> Motion
    ensures { result ≡ motion_at words.now }
{
    Motion {
        position: float_at(words, 1),
        velocity: float_at(words, 3),
        max_speed: float_at(words, 5),
        acceleration: float_at(words, 7),
        deceleration: float_at(words, 9),
        inspection_speed_factor: float_at(words, 11),
    }
}

fn has_motion_outside(motion: Motion) -> bool
    ensures { result ≡ has_motion_outside motion }
{
    is_outside_size(motion.position, 1000000.0)
        | is_outside_size(motion.velocity, 1000.0)
        | is_outside_from_zero(motion.max_speed, 1000.0)
        | is_outside_from_zero(motion.acceleration, 1000.0)
        | is_outside_from_zero(motion.deceleration, 1000.0)
        | is_outside_from_zero(motion.inspection_speed_factor, 10.0)
}

pub fn decode_car(head: Fields, words: &[u32]) -> Result<Read, Refusal>
    ensures { result ≡ read_checked (car_record head words.now) }
{
    refuse_if(words.len() < 15, Refusal::CutShort)?;
    refuse_if((head.s > 7) | (head.v != 0), Refusal::FieldOutside)?;
    let motion = motion_at(words);
    refuse_if(has_motion_outside(motion), Refusal::FloatOutside)?;
    let plan = CarPlan {
        line: head.s,
        motion,
        door_transition_ticks: word_at(words, 13),
        door_open_ticks: word_at(words, 14),
    };
    let found = Found::Change(Record::Car {
        number: head.n,
        plan,
    });
    Ok(Read { found, used: 15 })
}

// The body word of a rider: bits 7-0 phase, 15-8 phase's car, 23-16 car aboard, top bits.
// Stays: a struct. Where the four bytes go into `decode_rider` as an array's items, the search for its promise stops
// at its limit of case splits.
#[derive(Clone, Copy)]
struct RiderBody {
    phase: u8,
    car: u8,
    aboard: u8,
    top: u8,
}

fn rider_body(word: u32) -> RiderBody
    ensures { result ≡ rider_body word }
{
    let [phase, car, aboard, top] = word.to_le_bytes();
    RiderBody {
        phase,
        car,
        aboard,
        top,
    }
}

// The phase of a rider by its number; phases 1 to 3 have a car, the others 255.
fn rider_phase(phase: u8, car: u8) -> Result<RiderPhase, Refusal>
    ensures { result ≡
        cond (ltb 7 phase || is_phase_car_outside phase car) (Err FieldOutside) (Ok (rider_phase phase car)) }
{
    match (phase, car) {
        (0, 255) => Ok(RiderPhase::Waiting),
        (1, 0..=15) => Ok(RiderPhase::Boarding(car)),
        (2, 0..=15) => Ok(RiderPhase::Riding(car)),
        (3, 0..=15) => Ok(RiderPhase::Exiting(car)),
        (4, 255) => Ok(RiderPhase::Walking),
        (5, 255) => Ok(RiderPhase::Arrived),
        (6, 255) => Ok(RiderPhase::Abandoned),
        (7, 255) => Ok(RiderPhase::Resident),
        _ => Err(Refusal::FieldOutside),
    }
}

// A car, or 255 for none.
fn car_option(car: u8) -> Result<Option<u8>, Refusal>
    ensures { result ≡ cond (is_not_car car && not (eqb car 255)) (Err FieldOutside) (Ok (car_option car)) }
{
    match car {
        0..=15 => Ok(Some(car)),
        255 => Ok(None),
        _ => Err(Refusal::FieldOutside),
    }
}

// A stop, or 65,535 for none.
fn stop_option(stop: u32) -> Result<Option<u8>, Refusal>
    ensures { result ≡ cond (is_not_stop stop && not (eqb stop 65535)) (Err FieldOutside) (Ok (stop_option stop)) }
{
    match stop {
        65535 => Ok(None),
        _ => Ok(Some(stop_in_range(stop)?)),
    }
}

pub fn decode_rider(head: Fields, words: &[u32]) -> Result<Read, Refusal>
    ensures { result ≡ read_checked (rider_record head words.now) }
{
    refuse_if(words.len() < 2, Refusal::CutShort)?;
    let body = rider_body(word_at(words, 1));
    let field_outside = (head.n != 0) | (head.s > 127) | (body.top != 0);
    refuse_if(field_outside, Refusal::FieldOutside)?;
    let rider = Rider {
        destination: stop_option(head.v)?,
        phase: rider_phase(body.phase, body.car)?,
        aboard: car_option(body.aboard)?,
    };
    let found = Found::Change(Record::Rider {
        number: head.s,
        rider,
    });
    Ok(Read { found, used: 2 })
}
