// Hall calls in one direction: a set of stops in a u64. A stop from 64 on is in no set.
// Stays: the u64 goes by value and comes back, and is no type of its own with `&mut self`: the paper names the sets
// as 64-bit words, and what the functions promise of one call is a fact on numbers.
#![tactic(auto)]

ghost use Rattle.std.specs.Prelude.{◌≡◌, true};
ghost use Rattle.world_call_sets.specs.Calls as Calls;
ghost use Rattle.world_call_sets.specs.Sets.{Sets};

// Whether there is a call at the stop.
#[tactic(auto, using(crate::proofs::Bits::read_bit, crate::proofs::Bits::no_bit))]
pub fn is_called(calls: u64, stop: u8) -> bool
    ensures { result ≡ Calls.is_called calls stop }
{
    stop < 64 && (calls >> stop) & 1 == 1
}

// The calls with one at the stop.
#[tactic(auto, using(crate::proofs::Bits::set_bit), unfolding(crate::specs::Calls::pressed))]
pub fn pressed(calls: u64, stop: u8) -> u64
    ensures { result ≡ Calls.pressed calls stop }
{
    if stop < 64 {
        calls | (1 << stop)
    } else {
        calls
    }
}

// The calls without one at the stop.
// Stays: beside `pressed`: one function of both would take the operator, or the mask turned round, as a parameter:
// longer than the two.
#[tactic(auto, using(crate::proofs::Bits::clear_bit, crate::proofs::Bits::no_bit), unfolding(crate::specs::Calls::cleared))]
pub fn cleared(calls: u64, stop: u8) -> u64
    ensures { result ≡ Calls.cleared calls stop }
{
    if stop < 64 {
        calls & !(1 << stop)
    } else {
        calls
    }
}

// Pressing and clearing are those of sets: claims about the definitions, which this function only carries.
#[tactic(auto, using(crate::proofs::Members::all_sets))]
pub fn sets() -> bool
    ensures { (result ≡ true) × Sets }
{
    true
}
