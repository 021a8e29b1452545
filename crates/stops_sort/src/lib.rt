// The sort of stops: by position (0 and -0 alike, one that is not a number last), then number.
#![tactic(auto)]

ghost use Rattle.std.specs.Prelude.{◌≡◌, true, not, ◌+◌, ◌<◌, min};
ghost use Rattle.stops_sort.specs.Sorted.{is_stop_before, StopsSorted};
ghost use Rattle.stops_sort.specs.Parts.{sorted_table};

use float::is_before;
use stops_lookup::stops::stop_position;
use world::Stops;

// Whether stop i comes before stop j.
// Stays: with the `Ordering` of `partial_cmp`, and the numbers' where it is Equal, an insertion of 64 stops that are
// in order takes 290 ns in place of 100.
#[tactic(auto, unfolding(crate::specs::Sorted::is_stop_before, crate::specs::Sorted::is_position_before))]
fn is_stop_before(stops: &[f64; 64], i: u8, j: u8) -> bool
    ensures { result ≡ is_stop_before stops.now i j }
{
    let p = stop_position(stops, i);
    let q = stop_position(stops, j);
    is_before(p, q) | !is_before(q, p) & (i < j)
}

// Whether stop i does not come before stop j. Where j lies lower, one comparison says so.
#[tactic(auto, using(crate::proofs::Order::not_before_lower))]
fn is_stop_after(stops: &[f64; 64], i: u8, j: u8) -> bool
    ensures { result ≡ not (is_stop_before stops.now i j) }
{
    if stop_position(stops, j) < stop_position(stops, i) {
        return true;
    }
    !is_stop_before(stops, i, j)
}

// Stop i into the sorted i before it, from the back: one comparison where it comes last.
// Stays: by std's `sort_unstable_by` 64 stops that are in order take 190 ns in place of 100, and with eight of them
// out of place 1,540 in place of 147 (all mixed up, 1,610 in place of 2,850); `sort_by` takes memory above 20 items.
#[tactic(auto, using(crate::proofs::Insertion::insert_turn), unfolding(crate::proofs::Insertion::from_back))]
fn insert(order: &mut [u8; 64], stops: &[f64; 64], i: usize)
    requires { (i < 64) × (order.old ≡ sorted_table stops.now i) }
    ensures { order.new ≡ sorted_table stops.now (i + 1) }
{
    // Stays: a `for` over the places in reverse has the same tests and writes, and is no plainer.
    let mut k = i;
    while 0 < k {
        let j = order[k - 1];
        if is_stop_after(stops, i as u8, j) {
            order[k] = i as u8;
            return;
        }
        order[k] = j;
        k -= 1;
    }
    order[0] = i as u8;
}

// The numbers below the count in the order of their stops; zeros past the count.
#[tactic(auto, unfolding(crate::specs::Sorted::sorted_stops))]
pub fn sorted_stops(stops: &Stops) -> [u8; 64]
    ensures { result ≡ sorted_table stops.now.items (min stops.now.count 64) }
{
    let n = stops.as_slice().len();
    let mut order = [0u8; 64];
    for i in 0..n {
        insert(&mut order, &stops.items, i);
    }
    order
}

// Carries the claims that the definition is sorted and has each number once.
#[tactic(auto, using(crate::proofs::Insertion::stops_sorted))]
pub fn stops_sorted() -> bool
    ensures { (result ≡ true) × StopsSorted }
{
    true
}
