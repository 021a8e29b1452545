// Kinds 1 to 4: what is loaded. What the state refuses, or the world after the record.
#![tactic(auto)]

ghost use Rattle.std.specs.Prelude.{◌≡◌, ◌+◌, ◌∷◌, [], Ok, Err};
ghost use Rattle.world.specs.Refusal.{check, unless};
ghost use Rattle.world.specs.Tables.{with_item};
ghost use Rattle.world.specs.declared.refusal.Refusal.TheVariants.{NotNext};
ghost use Rattle.record_start.specs.Changes.{is_not_next};
ghost use Rattle.record_loads.specs.Loads as Loads;

use record_start::Effect;
use world::empty::new_car;
use world::refusal::{Refusal, refuse_if};
use world::{CarPlan, Line, Rider, Table, World};
use world_sound_rows::{is_line_broken, is_rider_broken, is_unloaded};

// A table with one more item, that of a record's own number; refused where this is not the next unused one, of which
// a full table has none.
fn with_next<T: Copy, const N: usize>(
    table: Table<T, N>,
    number: u8,
    item: T,
) -> Result<Table<T, N>, Refusal>
    ensures { result ≡ unless (check NotNext (is_not_next N table.count number) ∷ [])
        Err (Ok (with_item table number item (number + 1))) }
{
    refuse_if(number as usize != table.count, Refusal::NotNext)?;
    table.pushed(item).ok_or(Refusal::NotNext)
}

// Kind 2.
// Stays: here and below a function a kind, each of its own table and of its own check of what it names. What they
// share is `with_next`.
#[tactic(auto, unfolding(crate::specs::Loads::load_stop))]
pub fn load_stop(world: World, number: u8, position: f64) -> Effect
    ensures { result ≡ Loads.load_stop world number position }
{
    refuse_if(world.started, Refusal::NotNow)?;
    let stops = with_next(world.stops, number, position)?;
    Ok(World { stops, ..world })
}

// The count of riders once this number is loaded: one more where it is new.
fn count_with(count: usize, number: u8) -> usize
    ensures { result ≡ Loads.count_with count number }
{
    let at = number as usize;
    if at == count { at + 1 } else { count }
}

// Kind 4.
#[tactic(auto, unfolding(crate::specs::Loads::load_rider))]
pub fn load_rider(mut world: World, number: u8, rider: Rider) -> Effect
    ensures { result ≡ Loads.load_rider world number rider }
{
    let at = number as usize;
    refuse_if((128 <= at) | (world.riders.count < at), Refusal::NotNext)?;
    let broken = is_rider_broken(world.stops.count, world.cars.count, rider);
    refuse_if(broken, Refusal::NotLoaded)?;
    world.riders.items[at] = rider;
    world.riders.count = count_with(world.riders.count, number);
    Ok(world)
}

// Kind 3.
#[tactic(auto, unfolding(crate::specs::Loads::load_car))]
pub fn load_car(world: World, number: u8, plan: CarPlan) -> Effect
    ensures { result ≡ Loads.load_car world number plan }
{
    refuse_if(world.started, Refusal::NotNow)?;
    let cars = with_next(world.cars, number, new_car(plan))?;
    refuse_if(
        is_unloaded(world.lines.count, plan.line),
        Refusal::NotLoaded,
    )?;
    Ok(World { cars, ..world })
}

// Kind 1.
#[tactic(auto, unfolding(crate::specs::Loads::load_line))]
pub fn load_line(world: World, number: u8, line: Line) -> Effect
    ensures { result ≡ Loads.load_line world number line }
{
    refuse_if(64 < line.serves.stops.count, Refusal::FieldOutside)?;
    refuse_if(world.started, Refusal::NotNow)?;
    let lines = with_next(world.lines, number, line)?;
    refuse_if(is_line_broken(world.stops.count, line), Refusal::NotLoaded)?;
    Ok(World { lines, ..world })
}
