// A new car, and the empty world.
ghost use Rattle.std.specs.Prelude.{◌≡◌};
ghost use Rattle.world.specs.World.{new_car, unloaded_car, empty_world};

use crate::{
    Car, CarPlan, ElevatorPhase, HallCalls, Lamps, Line, Rider, RiderPhase, ServiceMode, Table,
    World,
};
use door::{DoorCommand, DoorState};

// A car as it is loaded.
// Stays: here and below a function by the paper's words. `From` and `Default` would promise the same, and say neither
// "loaded" nor "empty".
pub fn new_car(plan: CarPlan) -> Car
    ensures { result ≡ new_car plan }
{
    let motion = plan.motion;
    Car {
        line: plan.line,
        phase: ElevatorPhase::Idle,
        door: DoorState::Closed,
        service_mode: ServiceMode::Normal,
        enabled: true,
        motion,
        door_transition_ticks: plan.door_transition_ticks,
        door_open_ticks: plan.door_open_ticks,
        lamps: Lamps::BOTH,
        going_forward: false,
        repositioning: false,
        target_stop: None,
        manual_target_velocity: None,
        destination_queue: Table::of_none(0),
        door_command_queue: Table::of_none(DoorCommand::Open),
        move_count: 0,
        cooldown: None,
    }
}

// What stands in a car's place before it is loaded.
fn unloaded_car() -> Car
    ensures { result ≡ unloaded_car }
{
    new_car(CarPlan::default())
}

// Nothing loaded or queued, no hall call, no start, no tick made and every counter 0.
#[tactic(auto, unfolding(crate::specs::World::empty_world))]
pub fn empty() -> World
    ensures { result ≡ empty_world }
{
    let rider = Rider {
        destination: None,
        phase: RiderPhase::Waiting,
        aboard: None,
    };
    let car = unloaded_car();
    World {
        stops: Table::of_none(0.0),
        lines: Table::of_none(Line::NONE),
        cars: Table::of_none(car),
        riders: Table::of_none(rider),
        calls: HallCalls::NONE,
        started: false,
        ticks: 0,
        total_moves: 0,
        reposition_distance: 0.0,
    }
}
