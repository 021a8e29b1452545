// The door of a car: a finite-state machine on ticks (door.rs).
#![tactic(auto)]

ghost use Rattle.std.specs.Prelude.{◌≡◌, true};
ghost use Rattle.door.specs.Door.{request_open, tick, is_open, is_closed};
ghost use Rattle.door.specs.Parts.{one_less};
ghost use Rattle.door.specs.Phases.{PhasesEnd};

// Where a door stands, with the ticks left there and those of the phases to come.
#[derive(Clone, Copy, PartialEq, Eq)]
pub enum DoorState {
    Closed,
    Opening {
        ticks_remaining: u32,
        open_duration: u32,
        close_duration: u32,
    },
    Open {
        ticks_remaining: u32,
        close_duration: u32,
    },
    Closing {
        ticks_remaining: u32,
    },
}

// What a host asks of a door by hand.
#[derive(Clone, Copy, PartialEq, Eq)]
pub enum DoorCommand {
    Open,
    Close,
    HoldOpen { ticks: u32 },
    CancelHold,
}

// The phase that a tick ended, if any.
// Stays: the Rust's own enum. As an Option of three endings it would part from the Rust's names.
#[derive(Clone, Copy, PartialEq, Eq)]
pub enum DoorTransition {
    None,
    FinishedOpening,
    FinishedOpen,
    FinishedClosing,
}

impl DoorState {
    // Fully open.
    pub fn is_open(self) -> bool
        ensures { result ≡ is_open self }
    {
        matches!(self, DoorState::Open { .. })
    }

    // Fully closed.
    pub fn is_closed(self) -> bool
        ensures { result ≡ is_closed self }
    {
        self == DoorState::Closed
    }

    // Begins to open: the closing will take as long as the opening.
    pub fn request_open(transition_ticks: u32, open_ticks: u32) -> DoorState
        ensures { result ≡ request_open transition_ticks open_ticks }
    {
        DoorState::Opening {
            ticks_remaining: transition_ticks,
            open_duration: open_ticks,
            close_duration: transition_ticks,
        }
    }

    // One tick fewer remains of its phase.
    // Stays: three arms; one pattern of the three was tried, and what its `&mut` leaves in the door is not known
    // where they join.
    fn count_down(&mut self)
        ensures { self.new ≡ one_less self.old }
    {
        match self {
            DoorState::Closed => {}
            DoorState::Opening {
                ticks_remaining,
                ..
            } => *ticks_remaining = ticks_remaining.saturating_sub(1),
            DoorState::Open {
                ticks_remaining,
                ..
            } => *ticks_remaining = ticks_remaining.saturating_sub(1),
            DoorState::Closing { ticks_remaining } => *ticks_remaining =
                ticks_remaining.saturating_sub(1),
        }
    }

    // One tick, and the transition that it made. A phase with 0 or 1 ticks remaining ends.
    pub fn tick(&mut self) -> DoorTransition
        ensures door { self.new ≡ (tick self.old).door }
        ensures transition { result ≡ (tick self.old).transition }
    {
        self.count_down();
        match *self {
            DoorState::Opening {
                ticks_remaining: 0,
                open_duration,
                close_duration,
            } => {
                *self = DoorState::Open {
                    ticks_remaining: open_duration,
                    close_duration,
                };
                DoorTransition::FinishedOpening
            }
            DoorState::Open {
                ticks_remaining: 0,
                close_duration,
            } => {
                *self = DoorState::Closing {
                    ticks_remaining: close_duration,
                };
                DoorTransition::FinishedOpen
            }
            DoorState::Closing { ticks_remaining: 0 } => {
                *self = DoorState::Closed;
                DoorTransition::FinishedClosing
            }
            _ => DoorTransition::None,
        }
    }
}

// When the phases of a door end: a claim about the definitions, which this function only carries.
#[tactic(auto, using(crate::proofs::Phases::phases_end))]
pub fn phases_end() -> bool
    ensures { (result ≡ true) × PhasesEnd }
{
    true
}
