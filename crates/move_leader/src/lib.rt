// The leader on a loop: systems/movement.rs.
#![tactic(auto)]

ghost use Rattle.std.specs.Prelude.{◌≡◌, true};
ghost use Rattle.move_leader.specs.Leader.{is_other_car, loop_leader_pos, LeaderIsNearest};
ghost use Rattle.move_leader.specs.Parts.{nearer_leader};

use float::is_total_before;
use motion::cyclic::forward_distance;
use world::{Car, Table};

// Whether car i is another car of the line, disabled or not.
fn is_other_car(car: Car, me: usize, line: u8, i: usize) -> bool
    ensures { result ≡ is_other_car car me line i }
{
    (i != me) & (car.line == line)
}

// The nearer of two cars with their distances, the earlier where neither is.
// Stays: beside stops_next's. The Rust finds a leader by total_cmp and a stop by `<`; one function of both would take
// the order and the item's type, to share a match of two arms.
fn nearer_leader(best: Option<(f64, f64)>, distance: f64, position: f64) -> Option<(f64, f64)>
    ensures { result ≡ nearer_leader best distance position }
{
    match best {
        Some((nearest, _)) if !is_total_before(distance, nearest) => best,
        _ => Some((distance, position)),
    }
}

// systems/movement.rs, loop_leader_pos. The hint is for lines, which do not call it: as a part of the record call it
// costs them 46 to 80 ns a tick.
#[tactic(auto, using(crate::proofs::Lead::turn_of), unfolding(crate::specs::Leader::loop_leader_pos))]
#[inline(never)]
pub fn loop_leader_pos(
    cars: &Table<Car, 16>,
    me: usize,
    line: u8,
    pos: f64,
    circumference: f64,
) -> Option<f64>
    ensures { result ≡ loop_leader_pos cars.now me line pos circumference }
{
    let mut best = None;
    for (i, car) in cars.as_slice().iter().enumerate() {
        if is_other_car(*car, me, line, i) {
            let distance = forward_distance(pos, car.motion.position, circumference);
            best = nearer_leader(best, distance, car.motion.position);
        }
    }
    best.map(|(_, position)| position)
}

// Carries the claim that the definition gives the leader.
#[tactic(auto, using(crate::proofs::Lead::leader_is_nearest))]
pub fn leader_is_nearest() -> bool
    ensures { (result ≡ true) × LeaderIsNearest }
{
    true
}
