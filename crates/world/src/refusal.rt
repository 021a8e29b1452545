// The refusals (error answers) and their numbers in the paper.
ghost use Rattle.std.specs.Prelude.{◌≡◌, true, false, MatchResult};
ghost use Rattle.world.specs.Refusal.{refusal_number};

#[derive(Clone, Copy, PartialEq, Eq)]
pub enum Refusal {
    // a lent world with a count, a queue, a counter or a number that records never make
    BrokenWorld = 0,
    // no word, or a body cut short
    CutShort = 1,
    // kind 0, E or F
    UnknownKind = 2,
    // a field outside its codes or number range, or an unused bit set
    FieldOutside = 3,
    // a float not finite or outside its range
    FloatOutside = 4,
    // from the report alone: a log word of kind B to F
    LogKind = 5,
    // a kind before or after start where it does not belong
    NotNow = 6,
    // a record's own number that is not the next unused one; of a rider, one above it
    NotNext = 7,
    // a car, stop or line named but not loaded
    NotLoaded = 8,
    // a send to a car that is disabled, or neither Idle nor Stopped
    CannotGo = 9,
    // a queue that holds 8
    QueueFull = 10,
    // the last tick has been made
    LastTick = 11,
    // a log that is too short
    LogShort = 12,
}

// The paper's number.
impl From<Refusal> for u32 {
    ghost from_gives = { λ refusal number. number ≡ refusal_number refusal };

    fn from(refusal: Refusal) -> u32 {
        refusal as u32
    }
}

// A refusal where its condition holds.
pub fn refuse_if(holds: bool, refusal: Refusal) -> Result<(), Refusal>
    ensures { MatchResult result (λ passed. holds ≡ false) (λ given. (holds ≡ true) × (given ≡ refusal)) }
{
    if holds { Err(refusal) } else { Ok(()) }
}
