// What knows no loop of the record call: what each record but the tick does, and what the state says of a tick.
#![tactic(auto)]

ghost use Rattle.std.specs.Prelude.{◌≡◌, true};
ghost use Rattle.record_kinds.specs.Kinds.{change_by};
ghost use Rattle.record_kinds.specs.Parts.{tick_taken};
ghost use Rattle.record_kinds.specs.PaperRoom.{PaperRoom};

use record_start::Effect;
use tape_records::Record;
use world::World;
use world::refusal::{Refusal, refuse_if};

// Kinds 1 to B and D: what the state refuses, or the world after the record.
pub fn change(world: World, read: Record) -> Effect
    ensures { result ≡ change_by world read }
{
    match read {
        Record::Line { number, line } => record_loads::load_line(world, number, line),
        Record::Stop { number, position } => record_loads::load_stop(world, number, position),
        Record::Car { number, plan } => record_loads::load_car(world, number, plan),
        Record::Rider { number, rider } => record_loads::load_rider(world, number, rider),
        Record::Send {
            car,
            stop,
            reposition,
        } => record_send::send(world, car, stop, reposition),
        Record::Mode { car, mode } => record_modes::set_mode(world, car, mode),
        Record::ManualSpeed { car, speed } => record_modes::set_manual_speed(world, car, speed),
        Record::DoorCommand { car, command } => record_queues::queue_command(world, car, command),
        Record::HallCall { stop, down } => record_queues::press_hall_call(world, stop, down),
        Record::Destination { car, stop } => record_queues::push_destination(world, car, stop),
        Record::Enable { car, enabled } => record_modes::set_enabled(world, car, enabled),
        Record::Start => record_start::start(world),
    }
}

// Kind C, with a log of `room` words: 6, 11 and 12, or the tick is taken.
#[tactic(auto, using(crate::proofs::Proved::small), unfolding(crate::specs::Parts::tick_taken))]
pub fn take_tick(world: &World, room: usize) -> Result<(), Refusal>
    ensures { result ≡ tick_taken world.now.started world.now.ticks world.now.cars.count world.now.stops.count room }
{
    refuse_if(!world.started, Refusal::NotNow)?;
    refuse_if(0x1000_0000 <= world.ticks, Refusal::LastTick)?;
    let need = world.cars.count.min(16) * (world.stops.count.min(64) + 14) + 1;
    refuse_if(room < need, Refusal::LogShort)
}

// Carries the claim that the room which a tick asks for is the paper's number.
#[tactic(auto, using(crate::proofs::Proved::paper_room))]
pub fn paper_room() -> bool
    ensures { (result ≡ true) × PaperRoom }
{
    true
}
