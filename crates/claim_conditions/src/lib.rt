// The certificate's first condition, and that a refusal is given on its condition and on no other.
#![tactic(auto)]

ghost use Rattle.std.specs.Prelude.{◌≡◌, true};
ghost use Rattle.claim_conditions.specs.Conditions.{FirstCondition};
ghost use Rattle.claim_conditions.specs.Refusals.{GivenOnItsCondition};

// Carries the certificate's first condition.
#[tactic(auto, using(crate::proofs::Answering::first_condition))]
pub fn first_condition() -> bool
    ensures { (result ≡ true) × FirstCondition }
{
    true
}

// Carries the claim that a refusal is given on its condition and on no other: of the record call and of the report.
#[tactic(auto, using(crate::proofs::Given::given_on_its_condition))]
pub fn on_its_condition() -> bool
    ensures { (result ≡ true) × GivenOnItsCondition }
{
    true
}
