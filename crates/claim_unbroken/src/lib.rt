// Refusal 0, "Records never make one", as a claim about lists of record calls.
#![tactic(auto)]

ghost use Rattle.std.specs.Prelude.{◌≡◌, true};
ghost use Rattle.claim_unbroken.specs.NeverBroken.{NeverBroken};

// Carries the claim that no list of calls from the empty world leaves a broken one.
#[tactic(auto, using(crate::proofs::Proved::never_broken))]
pub fn never_broken() -> bool
    ensures { (result ≡ true) × NeverBroken }
{
    true
}
