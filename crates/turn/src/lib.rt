// What the two systems share: a line of the table, the test of inspection, the word of the lamps, and what a door
// that opened leaves.
#![tactic(auto)]

ghost use Rattle.std.specs.Prelude.{◌≡◌};
ghost use Rattle.log_writes.specs.Parts.{Written};
ghost use Rattle.turn.specs.Steps.{update_indicators, is_inspection};
ghost use Rattle.turn.specs.Steps as Steps;

use log_words::Event;
use log_writes::Log;
use world::{Lamps, Line, ServiceMode};

// doors.rs, an entry of just_opened: the stop where a car's door has opened in this tick, and its lamps.
#[derive(Clone, Copy)]
pub struct JustOpened {
    pub stop: u8,
    pub lamps: Lamps,
}

// A line of the table; past it, a linear one without a list.
// Stays: the rows alone: a row past the count is read too, and a `&Table` would not say so.
#[tactic(auto, unfolding(crate::specs::Steps::line_of))]
pub fn line_of(lines: &[Line; 8], line: u8) -> Line
    ensures { result ≡ Steps.line_of lines.now line }
{
    lines.get(line as usize).copied().unwrap_or(Line::NONE)
}

pub fn is_inspection(mode: ServiceMode) -> bool
    ensures { result ≡ is_inspection mode }
{
    mode == ServiceMode::Inspection
}

// systems/dispatch.rs, update_indicators: a word where a lamp changes.
#[tactic(auto, using(log_writes::proofs::Written::written_none))]
pub fn update_indicators(log: &mut Log, number: u8, was: Lamps, lamps: Lamps)
    ensures { Written log.old (update_indicators number was lamps) log.new }
{
    if was != lamps {
        log.emit(Event::DirectionIndicatorChanged {
            car: number,
            going_up: lamps.going_up,
            going_down: lamps.going_down,
        });
    }
}
