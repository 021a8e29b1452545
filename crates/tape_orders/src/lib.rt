// Reads kinds 5 to D of a tape: what cars, hall calls and the clock are told.
#![tactic(auto)]

ghost use Rattle.std.specs.Prelude.{◌≡◌, ◌&&◌, ◌||◌, not, cond, ltb, eqb, Ok, Err};
ghost use Rattle.world.specs.declared.refusal.Refusal.TheVariants.{FieldOutside};
ghost use Rattle.tape_records.specs.Answers.{read_checked, is_nonzero};
ghost use Rattle.tape_orders.specs.OrderRecords.{send_record, mode_record, manual_speed_record, command_of};
ghost use Rattle.tape_orders.specs.OrderRecords.{door_command_record, hall_call_record, destination_record};
ghost use Rattle.tape_orders.specs.OrderRecords.{enable_record, has_field_set, tick_record, start_record};

use door::DoorCommand;
use layout::Fields;
use tape_fields::body::{float_at, is_outside_above_zero, is_outside_size, is_raw_zero_at};
use tape_records::{Found, Read, Record, stop_in_range};
use world::ServiceMode;
use world::refusal::{Refusal, refuse_if};

// A flag: 0 or 1.
fn flag_of(v: u32) -> Result<bool, Refusal>
    ensures { result ≡ cond (ltb 1 v) (Err FieldOutside) (Ok (eqb v 1)) }
{
    match v {
        0 => Ok(false),
        1 => Ok(true),
        _ => Err(Refusal::FieldOutside),
    }
}

// Stays: here and below a function a kind. Each looks at other fields against other codes, and where two do the same
// they call one function: `refuse_if`, `stop_in_range`, `flag_of`, `has_field_set`, the ranges of `tape_fields`.
pub fn decode_send(head: Fields) -> Result<Read, Refusal>
    ensures { result ≡ read_checked (send_record head) }
{
    let found = Found::Change(Record::Send {
        car: head.n,
        stop: stop_in_range(u32::from(head.s))?,
        reposition: flag_of(head.v)?,
    });
    Ok(Read { found, used: 1 })
}

pub fn decode_mode(head: Fields) -> Result<Read, Refusal>
    ensures { result ≡ read_checked (mode_record head) }
{
    refuse_if(head.s != 0, Refusal::FieldOutside)?;
    let mode = ServiceMode::try_from(head.v)?;
    let found = Found::Change(Record::Mode { car: head.n, mode });
    Ok(Read { found, used: 1 })
}

pub fn decode_manual_speed(head: Fields, words: &[u32]) -> Result<Read, Refusal>
    ensures { result ≡ read_checked (manual_speed_record head words.now) }
{
    refuse_if(words.len() < 3, Refusal::CutShort)?;
    let speed = match (head.s, head.v) {
        (0, 0) if is_raw_zero_at(words, 1) => None,
        (0, 1) => Some(float_at(words, 1)),
        _ => return Err(Refusal::FieldOutside),
    };
    let float_outside = speed.is_some_and(|x| is_outside_size(x, 1000.0));
    refuse_if(float_outside, Refusal::FloatOutside)?;
    let found = Found::Change(Record::ManualSpeed { car: head.n, speed });
    Ok(Read { found, used: 3 })
}

// The door command of a code and its ticks, which none but HoldOpen has.
// Stays: the four codes stand here and in `log_words::code_and_ticks`, which stands below the tape and knows no
// record: from the code and to it. An enum of the codes would list the four names a third time.
fn command_of(s: u8, v: u32) -> Result<DoorCommand, Refusal>
    ensures { result ≡ cond (ltb 3 s || not (eqb s 2) && is_nonzero v) (Err FieldOutside) (Ok (command_of s v)) }
{
    match (s, v) {
        (0, 0) => Ok(DoorCommand::Open),
        (1, 0) => Ok(DoorCommand::Close),
        (2, ticks) => Ok(DoorCommand::HoldOpen { ticks }),
        (3, 0) => Ok(DoorCommand::CancelHold),
        _ => Err(Refusal::FieldOutside),
    }
}

pub fn decode_door_command(head: Fields) -> Result<Read, Refusal>
    ensures { result ≡ read_checked (door_command_record head) }
{
    let command = command_of(head.s, head.v)?;
    let found = Found::Change(Record::DoorCommand {
        car: head.n,
        command,
    });
    Ok(Read { found, used: 1 })
}

pub fn decode_hall_call(head: Fields) -> Result<Read, Refusal>
    ensures { result ≡ read_checked (hall_call_record head) }
{
    refuse_if(head.n != 0, Refusal::FieldOutside)?;
    let found = Found::Change(Record::HallCall {
        stop: stop_in_range(u32::from(head.s))?,
        down: flag_of(head.v)?,
    });
    Ok(Read { found, used: 1 })
}

pub fn decode_destination(head: Fields) -> Result<Read, Refusal>
    ensures { result ≡ read_checked (destination_record head) }
{
    refuse_if(head.v != 0, Refusal::FieldOutside)?;
    let found = Found::Change(Record::Destination {
        car: head.n,
        stop: stop_in_range(u32::from(head.s))?,
    });
    Ok(Read { found, used: 1 })
}

pub fn decode_enable(head: Fields) -> Result<Read, Refusal>
    ensures { result ≡ read_checked (enable_record head) }
{
    refuse_if(head.s != 0, Refusal::FieldOutside)?;
    let found = Found::Change(Record::Enable {
        car: head.n,
        enabled: !flag_of(head.v)?,
    });
    Ok(Read { found, used: 1 })
}

// One of n, s and v is not 0.
fn has_field_set(head: Fields) -> bool
    ensures { result ≡ has_field_set head }
{
    (head.n != 0) | (head.s != 0) | (head.v != 0)
}

pub fn decode_tick(head: Fields, words: &[u32]) -> Result<Read, Refusal>
    ensures { result ≡ read_checked (tick_record head words.now) }
{
    refuse_if(words.len() < 3, Refusal::CutShort)?;
    refuse_if(has_field_set(head), Refusal::FieldOutside)?;
    let dt = float_at(words, 1);
    refuse_if(is_outside_above_zero(dt, 1.0), Refusal::FloatOutside)?;
    Ok(Read {
        found: Found::Tick { dt },
        used: 3,
    })
}

pub fn decode_start(head: Fields) -> Result<Read, Refusal>
    ensures { result ≡ read_checked (start_record head) }
{
    refuse_if(has_field_set(head), Refusal::FieldOutside)?;
    let found = Found::Change(Record::Start);
    Ok(Read { found, used: 1 })
}
