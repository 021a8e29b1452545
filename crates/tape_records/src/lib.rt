// A tape's records with their values, and what is read of a tape.
#![tactic(auto)]

ghost use Rattle.std.specs.Prelude.{◌≡◌, cond, Ok, Err};
ghost use Rattle.world.specs.declared.refusal.Refusal.TheVariants.{FieldOutside};
ghost use Rattle.tape_records.specs.Answers.{is_not_stop};

use door::DoorCommand;
use world::refusal::Refusal;
use world::{CarPlan, Line, Rider, ServiceMode};

// A record other than a tick, with its values.
#[derive(Clone, Copy)]
pub enum Record {
    Line { number: u8, line: Line },
    Stop { number: u8, position: f64 },
    Car { number: u8, plan: CarPlan },
    Rider { number: u8, rider: Rider },
    Send { car: u8, stop: u8, reposition: bool },
    Mode { car: u8, mode: ServiceMode },
    ManualSpeed { car: u8, speed: Option<f64> },
    DoorCommand { car: u8, command: DoorCommand },
    // Stays: `down` is the bit v; why it is no direction stands at `log_words::Event::HallCallCleared`.
    HallCall { stop: u8, down: bool },
    Destination { car: u8, stop: u8 },
    Enable { car: u8, enabled: bool },
    Start,
}

// The stop of a number.
pub fn stop_in_range(number: u32) -> Result<u8, Refusal>
    ensures { result ≡ cond (is_not_stop number) (Err FieldOutside) (Ok number) }
{
    match number {
        0..=63 => Ok(number as u8),
        _ => Err(Refusal::FieldOutside),
    }
}

// What a tape begins with, and how many words it takes.
#[derive(Clone, Copy)]
pub struct Read {
    pub found: Found,
    pub used: usize,
}

// A record other than a tick, or a tick.
#[derive(Clone, Copy)]
pub enum Found {
    Change(Record),
    Tick { dt: f64 },
}
