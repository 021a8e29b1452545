// Claims about the definitions, which this function only carries.
ghost use Rattle.std.specs.Prelude.{◌≡◌, true};
ghost use Rattle.tape.specs.Facts.{ReadsInBounds};

#[tactic(auto, using(crate::proofs::Bounds::in_bounds))]
pub fn facts() -> bool
    ensures { (result ≡ true) × ReadsInBounds }
{
    true
}
