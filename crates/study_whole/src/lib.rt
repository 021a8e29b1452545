// What the study prints of a whole tape, and that its pieces come to it.
#![tactic(auto)]

ghost use Rattle.std.specs.Prelude.{◌≡◌, true};
ghost use Rattle.study_whole.specs.WholeTape.{Ignored, Longest, InPieces};
ghost use Rattle.study_whole.specs.Certified.{Certified};
ghost use Rattle.study_whole.specs.NeverShort.{NeverShort};
ghost use Rattle.study_whole.specs.PrintedTotals.{PrintedTotals, OneByte};
ghost use Rattle.study_whole.specs.Place.{PlacesHold};
ghost use Rattle.study_whole.specs.Example.{PaperTape, PaperCalls, PaperRounds, SecondStart, OneByteTold};

// Carries the claims.
#[tactic(auto, using(crate::proofs::Ignoring::ignored, crate::proofs::Ignoring::longest, crate::proofs::Rounds::in_pieces, crate::proofs::Certifying::certified, crate::proofs::Computed::paper_tape_lem, crate::proofs::Computed::paper_calls, crate::proofs::Computed::paper_rounds))]
pub fn whole_tape() -> bool
    ensures { (result ≡ true) × Ignored × Longest × InPieces × Certified × PaperTape × PaperCalls × PaperRounds }
{
    true
}

// Carries the claim that no call of the study is refused 12.
#[tactic(auto, using(crate::proofs::Fitting::never_short))]
pub fn never_short() -> bool
    ensures { (result ≡ true) × NeverShort }
{
    true
}

// Carries the claim about the line that is printed last, and a tape that it does not speak of.
#[tactic(auto, using(crate::proofs::Printing::printed_totals, crate::proofs::Printing::one_byte))]
pub fn printed_totals() -> bool
    ensures { (result ≡ true) × PrintedTotals × OneByte }
{
    true
}

// Carries the claims about the place at which a tape is refused, and about two tapes that are.
#[tactic(auto, using(crate::proofs::Placing::places, crate::proofs::Computed::second_start_lem, crate::proofs::Computed::one_byte_told))]
pub fn told_places() -> bool
    ensures { (result ≡ true) × PlacesHold × SecondStart × OneByteTold }
{
    true
}
