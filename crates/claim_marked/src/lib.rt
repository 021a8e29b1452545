// Document 01's marked examples, as one claim about the definitions, checked by computing.
#![tactic(auto)]

ghost use Rattle.std.specs.Prelude.{◌≡◌, true};
ghost use Rattle.claim_marked.specs.Marked.{Marked};

// Carries the claim.
#[tactic(auto, using(crate::proofs::Computed::examples_hold))]
pub fn marked() -> bool
    ensures { (result ≡ true) × Marked }
{
    true
}
