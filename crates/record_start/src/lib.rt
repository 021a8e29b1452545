// What the state says of a record: a refusal, or the world after it. What orders to a car have in common; kind D, the
// start.
#![tactic(auto)]

ghost use Rattle.std.specs.Prelude.{◌≡◌, ◌<◌, IfOk};
ghost use Rattle.record_start.specs.Changes as Changes;
ghost use Rattle.record_start.specs.Parts as Parts;

use world::World;
use world::refusal::{Refusal, refuse_if};
use world_sound_rows::is_unloaded;

// What a record that is no tick gives: a refusal, or the world after it.
pub type Effect = Result<World, Refusal>;

// The place of the car that an order names; refused before the start, and where the car is not loaded.
#[tactic(auto, unfolding(crate::specs::Parts::ordered_car))]
pub fn ordered_car(world: &World, car: u8) -> Result<usize, Refusal>
    ensures { (result ≡ Parts.ordered_car world.now car) × IfOk result (λ at. at < 16) }
{
    refuse_if(!world.started, Refusal::NotNow)?;
    let at = car as usize;
    refuse_if(
        (16 <= at) | is_unloaded(world.cars.count, car),
        Refusal::NotLoaded,
    )?;
    Ok(at)
}

// Kind D.
#[tactic(auto, unfolding(crate::specs::Changes::start))]
pub fn start(world: World) -> Effect
    ensures { result ≡ Changes.start world }
{
    refuse_if(world.started, Refusal::NotNow)?;
    Ok(World {
        started: true,
        ..world
    })
}
