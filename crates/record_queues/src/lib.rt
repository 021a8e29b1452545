// Kinds 8, 9 and A: door commands, hall calls and destinations, each where it waits.
#![tactic(auto)]

ghost use Rattle.std.specs.Prelude.{◌≡◌};
ghost use Rattle.record_queues.specs.Requests as Requests;

use door::DoorCommand;
use record_start::{Effect, ordered_car};
use world::World;
use world::refusal::{Refusal, refuse_if};
use world_call_sets::pressed;
use world_sound_rows::is_unloaded;

// Kind 8.
#[tactic(auto, unfolding(crate::specs::Requests::queue_command, record_start::specs::Parts::ordered_car))]
pub fn queue_command(mut world: World, car: u8, command: DoorCommand) -> Effect
    ensures { result ≡ Requests.queue_command world car command }
{
    let at = ordered_car(&world, car)?;
    let queue = world.cars.items[at].door_command_queue;
    world.cars.items[at].door_command_queue = queue.pushed(command).ok_or(Refusal::QueueFull)?;
    Ok(world)
}

// Kind 9.
#[tactic(auto, unfolding(crate::specs::Requests::press_hall_call))]
pub fn press_hall_call(mut world: World, stop: u8, down: bool) -> Effect
    ensures { result ≡ Requests.press_hall_call world stop down }
{
    refuse_if(!world.started, Refusal::NotNow)?;
    refuse_if(is_unloaded(world.stops.count, stop), Refusal::NotLoaded)?;
    if down {
        world.calls.down = pressed(world.calls.down, stop);
    } else {
        world.calls.up = pressed(world.calls.up, stop);
    }
    Ok(world)
}

// Kind A.
// Stays: beside queue_command, as its queue is another field and it names a stop. What they share are `ordered_car` and
// `pushed`.
#[tactic(auto, unfolding(crate::specs::Requests::push_destination, record_start::specs::Parts::ordered_car))]
pub fn push_destination(mut world: World, car: u8, stop: u8) -> Effect
    ensures { result ≡ Requests.push_destination world car stop }
{
    let at = ordered_car(&world, car)?;
    refuse_if(is_unloaded(world.stops.count, stop), Refusal::NotLoaded)?;
    let queue = world.cars.items[at].destination_queue;
    world.cars.items[at].destination_queue = queue.pushed(stop).ok_or(Refusal::QueueFull)?;
    Ok(world)
}
