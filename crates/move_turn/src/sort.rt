// The stops of a world in the order of their sort: systems/movement.rs looks up in it which stops a range has.
ghost use Rattle.std.specs.Prelude.{◌≡◌};
ghost use Rattle.move_turn.specs.Passing as Passing;
ghost use Rattle.move_turn.specs.Parts.{order_of, stops_between};

use std::marker::Model;
use stops_lookup::stops::stop_position;
use stops_sort::sorted_stops;
use world::Stops;

// The stops of a world, and the numbers below their count in the order of their sort.
// Stays: `order` is no Table: its count is that of the stops, and a second one would have to be shown equal to it in
// the invariant and at each use.
#[derive(Drop)]
pub struct SortedStops {
    stops: Stops,
    order: [u8; 64],
}

impl Model for SortedStops {
    ghost use Rattle.std.specs.Prelude.{◌≡◌, min};
    ghost use Rattle.world.specs.Tables.{Stops};
    ghost use Rattle.stops_sort.specs.Parts.{sorted_table};

    ghost Value = { Stops };

    ghost view = { λ s. s.stops };

    ghost invariant = { λ s. s.order ≡ sorted_table s.stops.items (min s.stops.count 64) };
}

impl SortedStops {
    // The stops are copied, so that a tick's loop may change the world beside them.
    pub fn new(stops: &Stops) -> SortedStops
        ensures { result ≡ stops.now }
    {
        SortedStops {
            stops: *stops,
            order: sorted_stops(stops),
        }
    }

    // The sort itself: sorted.0.
    fn sorted(&self) -> &[u8]
        ensures { result.now ≡ order_of self.now }
    {
        &self.order[..self.stops.count.min(64)]
    }

    // partition_point(p <= threshold)
    fn count_up_to(&self, threshold: f64) -> usize
        ensures { result ≡ Passing.start_of self.now.items (order_of self.now) threshold }
    {
        self.sorted().partition_point(|stop| stop_position(&self.stops.items, *stop) <= threshold)
    }

    // sorted.0[start..end]: the stops above the first threshold and below the second.
    // Stays: the end is looked for one by one, since few stops are passed. By partition_point a tick of 16 cars takes
    // 370, 1,020 or 1,500 instructions more at 2, 16 or 64 stops, of 17,000 to 20,000.
    #[tactic(auto, using(crate::proofs::Emitting::start_within))]
    pub(crate) fn between(&self, from: f64, to: f64) -> &[u8]
        ensures { result.now ≡ stops_between self.now from to }
    {
        let rest = &self.sorted()[self.count_up_to(from)..];
        let below = |stop: &&u8| stop_position(&self.stops.items, **stop) < to;
        &rest[..rest.iter().take_while(below).count()]
    }
}
