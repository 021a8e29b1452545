// Kind 5: a car is sent to a stop.
#![tactic(auto)]

ghost use Rattle.std.specs.Prelude.{◌≡◌};
ghost use Rattle.record_send.specs.Orders as Orders;

use record_start::{Effect, ordered_car};
use world::refusal::{Refusal, refuse_if};
use world::{Car, ElevatorPhase, World};
use world_sound_rows::is_unloaded;

fn is_sendable(phase: ElevatorPhase) -> bool
    ensures { result ≡ Orders.is_sendable phase }
{
    matches!(phase, ElevatorPhase::Idle | ElevatorPhase::Stopped)
}

fn with_target(car: Car, stop: u8, reposition: bool) -> Car
    ensures { result ≡ Orders.with_target car stop reposition }
{
    Car {
        phase: if reposition {
            ElevatorPhase::Repositioning(stop)
        } else {
            ElevatorPhase::MovingToStop(stop)
        },
        repositioning: reposition,
        target_stop: Some(stop),
        ..car
    }
}

// Kind 5.
#[tactic(auto, unfolding(crate::specs::Orders::send, record_start::specs::Parts::ordered_car))]
pub fn send(mut world: World, car: u8, stop: u8, reposition: bool) -> Effect
    ensures { result ≡ Orders.send world car stop reposition }
{
    let at = ordered_car(&world, car)?;
    refuse_if(is_unloaded(world.stops.count, stop), Refusal::NotLoaded)?;
    let row = world.cars.items[at];
    refuse_if(!row.enabled | !is_sendable(row.phase), Refusal::CannotGo)?;
    world.cars.items[at] = with_target(row, stop, reposition);
    Ok(world)
}
