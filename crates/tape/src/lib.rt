// Reads a tape (the input record stream): a record's fields, its length, and refusals 1 to 4. Nothing past the words
// given is read.
#![tactic(auto)]

pub mod facts; // claims about the definitions

ghost use Rattle.std.specs.Prelude.{◌≡◌};
ghost use Rattle.tape.specs.Tape.{decoded};

use layout::fields_of;
use tape_records::Read;
use world::refusal::Refusal;

// The record that the words begin with.
#[tactic(auto, unfolding(crate::specs::Tape::decoded, crate::specs::Tape::decoded_by))]
pub fn decode(words: &[u32]) -> Result<Read, Refusal>
    ensures { result ≡ decoded words.now }
{
    let head = fields_of(*words.first().ok_or(Refusal::CutShort)?);
    // Stays: a match on the number, which is read here alone and stands beside its decoder's name. An enum of the
    // kinds would list the thirteen names three times: in itself, in its TryFrom and in this match.
    match head.kind {
        1 => tape_loads::decode_line(head, words),
        2 => tape_loads::decode_stop(head, words),
        3 => tape_loads::decode_car(head, words),
        4 => tape_loads::decode_rider(head, words),
        5 => tape_orders::decode_send(head),
        6 => tape_orders::decode_mode(head),
        7 => tape_orders::decode_manual_speed(head, words),
        8 => tape_orders::decode_door_command(head),
        9 => tape_orders::decode_hall_call(head),
        10 => tape_orders::decode_destination(head),
        11 => tape_orders::decode_enable(head),
        12 => tape_orders::decode_tick(head, words),
        13 => tape_orders::decode_start(head),
        _ => Err(Refusal::UnknownKind),
    }
}
