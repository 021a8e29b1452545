// Facts of the formulas over any circle: those that proofs rest on, and those that a checker of arithmetic asks for.
#![tactic(auto)]

ghost use Rattle.std.specs.Prelude.{◌≡◌, true};
ghost use Rattle.motion_circle.specs.Facts.{FormulaFacts};

// Carries the claims of specs/Facts, which speak of the definitions alone.
#[tactic(auto, using(crate::proofs::Together::facts))]
pub fn facts() -> bool
    ensures { (result ≡ true) × FormulaFacts }
{
    true
}
