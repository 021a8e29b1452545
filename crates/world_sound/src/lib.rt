// Refusal 0: whether a lent world has a count, a queue, a counter or a number that records never make.
#![tactic(auto)]

ghost use Rattle.std.specs.Prelude.{◌≡◌};
ghost use Rattle.world_sound.specs.Sound as Sound;

use world::World;
use world_sound_rows::{is_car_broken, is_line_broken, is_rider_broken};

fn has_unloaded_call(stops: usize, calls: u64) -> bool
    ensures { result ≡ Sound.has_unloaded_call stops calls }
{
    stops < 64 && 1u64 << stops <= calls
}

#[tactic(auto, unfolding(crate::specs::Sound::has_broken_count))]
fn has_broken_count(world: &World) -> bool
    ensures { result ≡ Sound.has_broken_count world.now }
{
    (64 < world.stops.count)
        | (8 < world.lines.count)
        | (16 < world.cars.count)
        | (128 < world.riders.count)
        | (0x1000_0000 < world.ticks)
        | (0x1_0000_0000_0000 <= world.total_moves)
}

// Refusal 0. The world is lent: its tables would be copied.
pub fn is_broken(world: &World) -> bool
    ensures { result ≡ Sound.is_broken world.now }
{
    let stops = world.stops.count;
    let lines = world.lines.count;
    let cars = world.cars.count;
    has_broken_count(world)
        || world
            .lines
            .as_slice()
            .iter()
            .any(|line| is_line_broken(stops, *line))
            | world
                .cars
                .as_slice()
                .iter()
                .any(|car| is_car_broken(lines, stops, *car))
            | world
                .riders
                .as_slice()
                .iter()
                .any(|rider| is_rider_broken(stops, cars, *rider))
            | has_unloaded_call(stops, world.calls.up)
            | has_unloaded_call(stops, world.calls.down)
}
