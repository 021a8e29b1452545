// The hall calls that clear once all doors have had their tick: doors.rs, clear_matching_hall_calls.
#![tactic(auto)]

ghost use Rattle.std.specs.Prelude.{◌≡◌};
ghost use Rattle.log_writes.specs.Parts.{Written};
ghost use Rattle.doors_calls.specs.Clearing as Clearing;
ghost use Rattle.doors_calls.specs.Clearing.{clear_matching, clear_matching_words};
ghost use Rattle.doors_calls.specs.Parts.{Clears, ClearsAll};

use log_words::Event;
use log_writes::Log;
use turn::JustOpened;
use world::HallCalls;
use world_call_sets::{cleared, is_called};

// The call at a stop in one direction, where that lamp is lit.
#[tactic(auto, using(log_writes::proofs::Written::written_none), unfolding(crate::specs::Clearing::clear_one, crate::specs::Clearing::clear_word))]
fn clear_one(log: &mut Log, number: u8, stop: u8, lit: bool, down: bool, calls: u64) -> u64
    ensures calls { result ≡ Clearing.clear_one calls stop lit }
    ensures written { Written log.old (Clearing.clear_word calls number stop lit down) log.new }
{
    if lit & is_called(calls, stop) {
        log.emit(Event::HallCallCleared {
            car: number,
            stop,
            down,
        });
        return cleared(calls, stop);
    }
    calls
}

// doors.rs, clear_matching_hall_calls: up before down.
#[tactic(auto, using(log_writes::proofs::Written::written_none, log_writes::proofs::Written::written_also))]
fn clear_matching_hall_calls(
    log: &mut Log,
    number: u8,
    opened: Option<JustOpened>,
    calls: HallCalls,
) -> HallCalls
    ensures { Clears (clear_matching opened calls) (clear_matching_words opened number calls) log.old log.new result }
{
    let Some(JustOpened { stop, lamps }) = opened else {
        return calls;
    };
    let up = clear_one(log, number, stop, lamps.going_up, false, calls.up);
    let down = clear_one(log, number, stop, lamps.going_down, true, calls.down);
    HallCalls { up, down }
}

// run's last loop, over what each car has opened: the first 16, whose numbers have words.
pub fn clear_hall_calls(
    log: &mut Log,
    just_opened: &[Option<JustOpened>],
    mut calls: HallCalls,
) -> HallCalls
    ensures { ClearsAll just_opened.now calls log.old log.new result }
{
    if calls == HallCalls::NONE {
        return calls; // no call stands
    }
    let cars = just_opened.len().min(16);
    for (n, &opened) in just_opened[..cars].iter().enumerate() {
        calls = clear_matching_hall_calls(log, n as u8, opened, calls);
    }
    calls
}
