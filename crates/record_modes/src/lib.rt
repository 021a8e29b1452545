// Kinds 6, 7 and B: a car's mode, its manual speed, and whether it is enabled.
#![tactic(auto)]

ghost use Rattle.std.specs.Prelude.{◌≡◌};
ghost use Rattle.record_modes.specs.Modes as Modes;

use record_start::{Effect, ordered_car};
use world::{ServiceMode, World};

// Kind 6.
// Stays: here and below a function a kind, of another field each. What they share is `ordered_car`; one of the three
// would take a closure that writes the field, with a contract of its own, at each of its three callers.
#[tactic(auto, unfolding(crate::specs::Modes::set_mode, record_start::specs::Parts::ordered_car))]
pub fn set_mode(mut world: World, car: u8, mode: ServiceMode) -> Effect
    ensures { result ≡ Modes.set_mode world car mode }
{
    let at = ordered_car(&world, car)?;
    world.cars.items[at].service_mode = mode;
    Ok(world)
}

// Kind 7.
#[tactic(auto, unfolding(crate::specs::Modes::set_manual_speed, record_start::specs::Parts::ordered_car))]
pub fn set_manual_speed(mut world: World, car: u8, speed: Option<f64>) -> Effect
    ensures { result ≡ Modes.set_manual_speed world car speed }
{
    let at = ordered_car(&world, car)?;
    world.cars.items[at].manual_target_velocity = speed;
    Ok(world)
}

// Kind B.
#[tactic(auto, unfolding(crate::specs::Modes::set_enabled, record_start::specs::Parts::ordered_car))]
pub fn set_enabled(mut world: World, car: u8, enabled: bool) -> Effect
    ensures { result ≡ Modes.set_enabled world car enabled }
{
    let at = ordered_car(&world, car)?;
    world.cars.items[at].enabled = enabled;
    Ok(world)
}
