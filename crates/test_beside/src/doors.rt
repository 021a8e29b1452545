// The door on plain numbers.
// Stays: C's interface takes no enum, so a state is a number there and a door's fields are parameters.

ghost use Rattle.std.specs.Prelude.{◌≡◌};
ghost use Rattle.door.specs.Door.{request_open, is_open, is_closed};
ghost use Rattle.test_beside.specs.Doors.{door_of, door_fields, door_words, door_tick_words};

use door::{DoorState, DoorTransition};

// A door and a transition. state: 0 Closed, 1 Opening, 2 Open, 3 Closing; a field that the state
// does not have is 0. transition: 0 None, 1 FinishedOpening, 2 FinishedOpen, 3 FinishedClosing.
#[repr(C)]
#[derive(Clone, Copy)]
pub struct DoorWords {
    pub state: u32,
    pub ticks_remaining: u32,
    pub open_duration: u32,
    pub close_duration: u32,
    pub transition: u32,
}

#[unsafe(no_mangle)]
pub extern "C" fn door_request_open(transition_ticks: u32, open_ticks: u32) -> DoorWords
    ensures { result ≡ door_words (request_open transition_ticks open_ticks) DoorTransition.None }
{
    door_words(
        DoorState::request_open(transition_ticks, open_ticks),
        DoorTransition::None,
    )
}

// Here and below a state above 3 is taken as Closed.
#[unsafe(no_mangle)]
pub extern "C" fn door_tick(
    state: u32,
    ticks_remaining: u32,
    open_duration: u32,
    close_duration: u32,
) -> DoorWords
    ensures { result ≡ door_tick_words (door_of state ticks_remaining open_duration close_duration) }
{
    let mut door = door_of(state, ticks_remaining, open_duration, close_duration);
    let transition = door.tick();
    door_words(door, transition)
}

#[unsafe(no_mangle)]
pub extern "C" fn door_is_open(
    state: u32,
    ticks_remaining: u32,
    open_duration: u32,
    close_duration: u32,
) -> bool
    ensures { result ≡ is_open (door_of state ticks_remaining open_duration close_duration) }
{
    door_of(state, ticks_remaining, open_duration, close_duration).is_open()
}

#[unsafe(no_mangle)]
pub extern "C" fn door_is_closed(
    state: u32,
    ticks_remaining: u32,
    open_duration: u32,
    close_duration: u32,
) -> bool
    ensures { result ≡ is_closed (door_of state ticks_remaining open_duration close_duration) }
{
    door_of(state, ticks_remaining, open_duration, close_duration).is_closed()
}

// The door of a state's number and fields.
fn door_of(state: u32, ticks_remaining: u32, open_duration: u32, close_duration: u32) -> DoorState
    ensures { result ≡ door_of state ticks_remaining open_duration close_duration }
{
    match state {
        1 => DoorState::Opening {
            ticks_remaining,
            open_duration,
            close_duration,
        },
        2 => DoorState::Open {
            ticks_remaining,
            close_duration,
        },
        3 => DoorState::Closing { ticks_remaining },
        _ => DoorState::Closed,
    }
}

// A door and a transition as numbers.
fn door_words(door: DoorState, transition: DoorTransition) -> DoorWords
    ensures { result ≡ door_words door transition }
{
    match door {
        DoorState::Closed => door_fields(0, 0, 0, 0, transition),
        DoorState::Opening {
            ticks_remaining,
            open_duration,
            close_duration,
        } => {
            door_fields(
                1,
                ticks_remaining,
                open_duration,
                close_duration,
                transition,
            )
        }
        DoorState::Open {
            ticks_remaining,
            close_duration,
        } => door_fields(2, ticks_remaining, 0, close_duration, transition),
        DoorState::Closing { ticks_remaining } => door_fields(3, ticks_remaining, 0, 0, transition),
    }
}

fn door_fields(
    state: u32,
    ticks_remaining: u32,
    open_duration: u32,
    close_duration: u32,
    transition: DoorTransition,
) -> DoorWords
    ensures { result ≡ door_fields state ticks_remaining open_duration close_duration transition }
{
    DoorWords {
        state,
        ticks_remaining,
        open_duration,
        close_duration,
        transition: transition as u32,
    }
}
