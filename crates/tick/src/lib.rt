// What one tick is (specs/Tick.antt), and claims about it. The code that makes it is `record`.
#![tactic(auto)]

ghost use Rattle.std.specs.Prelude.{◌≡◌, true};
ghost use Rattle.tick.specs.Room.{WordsFit};
ghost use Rattle.tick.specs.Counters.{NothingWraps};
ghost use Rattle.tick.specs.Traps.{Traps};

// Carries the claim that no tick writes more words than refusal 12 asks room for.
#[tactic(auto, using(crate::proofs::Proved::words_fit))]
pub fn words_fit() -> bool
    ensures { (result ≡ true) × WordsFit }
{
    true
}

// Carries the claim that a tick's moves are its passing, arrived and repositioned words, and that no counter wraps.
#[tactic(auto, using(crate::proofs::Proved::nothing_wraps))]
pub fn nothing_wraps() -> bool
    ensures { (result ≡ true) × NothingWraps }
{
    true
}

// Carries document 01's traps and its tape, each by computing.
#[tactic(auto, using(crate::proofs::Computed::traps))]
pub fn traps() -> bool
    ensures { (result ≡ true) × Traps }
{
    true
}
