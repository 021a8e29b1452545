// The certificate's third condition over what calls on a lent world were given and gave.
#![tactic(auto)]

ghost use Rattle.std.specs.Prelude.{◌≡◌, true};
ghost use Rattle.claim_lent.specs.LentCertificate.{ThirdLent};

// Carries the third condition of lists of lent calls.
#[tactic(auto, using(crate::proofs::Lending::third_lent))]
pub fn third_lent() -> bool
    ensures { (result ≡ true) × ThirdLent }
{
    true
}
