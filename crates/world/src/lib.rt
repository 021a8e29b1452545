// The world of a traffic study: stops, lines, cars and riders in numbered tables, the hall calls, and the totals.
// It goes in by value and comes back. What lies past a table's count means nothing.
#![tactic(auto)]

ghost use Rattle.std.specs.Prelude.{◌≡◌, length, min};
ghost use Rattle.world.specs.Tables.{of_none};
ghost use Rattle.world.specs.Parts.{ModeOf, listed, pushed};

pub mod empty; // a new car, the empty world
pub mod refusal; // the refusals and their numbers

use crate::refusal::Refusal;
use door::{DoorCommand, DoorState};

// components/line.rs: the kind of a line.
#[derive(Clone, Copy)]
pub enum LineKind {
    Linear,
    Loop {
        circumference: f64,
        min_headway: f64,
    },
}

// A table of a fixed size, or a queue: its items, of which the first `count` are there.
// Stays: an array with its count, and no Vec: a world goes by value, and no call may run out of memory. Nor an
// ArrayVec of the library's `arrayvec`: it is not Copy, and could not hold a count above its size, which refusal 0
// finds in a lent world.
#[derive(Clone, Copy)]
pub struct Table<T, const N: usize> {
    pub items: [T; N],
    pub count: usize,
}

impl<T: Copy, const N: usize> Table<T, N> {
    // One of which no item is there; what stands in their places.
    pub fn of_none(item: T) -> Table<T, N>
        ensures { result ≡ of_none N item }
    {
        let items = [item; N];
        Table { items, count: 0 }
    }

    // The items that are there. A count above the size is taken as the size.
    pub fn as_slice(&self) -> &[T]
        ensures items { result.now ≡ listed self.now }
        ensures len { length result.now ≡ min self.now.count N }
    {
        &self.items[..self.count.min(N)]
    }

    // With one more item at its end; None where it is full.
    // Stays: it answers a table, and is no `push(&mut self)`: so its promise is one equation, which loads and
    // requests cite as the new table or the refusal; a push would say in two facts what is lent, where it is full and
    // where it is not.
    pub fn pushed(self, item: T) -> Option<Table<T, N>>
        ensures { result ≡ pushed self item }
    {
        if N <= self.count {
            return None;
        }
        let mut next = self;
        next.items[self.count] = item;
        next.count = self.count + 1;
        Some(next)
    }
}

// A car's queue of destinations, or of door commands.
pub type Queue<T> = Table<T, 8>;

// The positions of the stops.
pub type Stops = Table<f64, 64>;

// The stops that a line serves, in order; `listed` is false where it has no list.
// Stays: `listed` and no Option of the list. The paper's "a count above its limit" is read of every line of a lent
// world, also of one without a list; an Option would have no count there.
#[derive(Clone, Copy)]
pub struct Serves {
    pub listed: bool,
    pub stops: Table<u8, 64>,
}

impl Serves {
    pub const NONE: Serves = Serves {
        listed: false,
        stops: Table {
            items: [0; 64],
            count: 0,
        },
    };
}

// A line: its kind, and what it serves.
// Stays: the stops go beside it through the calls. They are a table of the world, lent, and it is a row of another: a
// struct of both would be made for each car's turn, and each look-up would read its two fields.
#[derive(Clone, Copy)]
pub struct Line {
    pub kind: LineKind,
    pub serves: Serves,
}

impl Line {
    // What stands in a line's place before it is loaded: linear, without a list.
    pub const NONE: Line = Line {
        kind: LineKind::Linear,
        serves: Serves::NONE,
    };
}

// Position and velocity of a car, and what limits them.
#[derive(Clone, Copy, Default)]
pub struct Motion {
    pub position: f64,
    pub velocity: f64,
    pub max_speed: f64,
    pub acceleration: f64,
    pub deceleration: f64,
    pub inspection_speed_factor: f64,
}

// components/elevator.rs, ElevatorPhase
#[derive(Clone, Copy, PartialEq, Eq)]
pub enum ElevatorPhase {
    Idle,
    MovingToStop(u8),
    Repositioning(u8),
    DoorOpening,
    Loading,
    DoorClosing,
    Stopped,
}

// components/service_mode.rs, ServiceMode
#[derive(Clone, Copy, PartialEq, Eq)]
pub enum ServiceMode {
    Normal,
    Independent,
    Inspection,
    Manual,
    OutOfService,
}

// The mode of a code.
impl TryFrom<u32> for ServiceMode {
    type Error = Refusal;

    ghost try_from_gives = { ModeOf };

    fn try_from(code: u32) -> Result<Self, Refusal> {
        match code {
            0 => Ok(ServiceMode::Normal),
            1 => Ok(ServiceMode::Independent),
            2 => Ok(ServiceMode::Inspection),
            3 => Ok(ServiceMode::Manual),
            4 => Ok(ServiceMode::OutOfService),
            _ => Err(Refusal::FieldOutside),
        }
    }
}

// What a car's record says of it: its line, its motion and its door's times.
#[derive(Clone, Copy, Default)]
pub struct CarPlan {
    pub line: u8,
    pub motion: Motion,
    pub door_transition_ticks: u32,
    pub door_open_ticks: u32,
}

// components/elevator.rs, Elevator, with its position, its destination queue and its reposition cooldown.
// Stays: its number goes beside it through the calls: as the Rust's EntityId it is the car's place in the table, and
// no field that could say another.
#[derive(Clone, Copy)]
pub struct Car {
    pub line: u8,
    pub phase: ElevatorPhase,
    pub door: DoorState,
    pub service_mode: ServiceMode,
    pub enabled: bool,
    pub motion: Motion,
    pub door_transition_ticks: u32,
    pub door_open_ticks: u32,
    pub lamps: Lamps,
    pub going_forward: bool,
    pub repositioning: bool,
    pub target_stop: Option<u8>,
    pub manual_target_velocity: Option<f64>,
    pub destination_queue: Queue<u8>,
    pub door_command_queue: Queue<DoorCommand>,
    pub move_count: u64,
    pub cooldown: Option<u64>,
}

// components/rider.rs, RiderPhase
#[derive(Clone, Copy, PartialEq, Eq)]
pub enum RiderPhase {
    Waiting,
    Boarding(u8),
    Riding(u8),
    Exiting(u8),
    Walking,
    Arrived,
    Abandoned,
    Resident,
}

// A rider: the stop that its route goes to, its phase, and the car whose riders it is among.
#[derive(Clone, Copy, PartialEq, Eq)]
pub struct Rider {
    pub destination: Option<u8>,
    pub phase: RiderPhase,
    pub aboard: Option<u8>,
}

// The lamps (direction indicators) of a car on a linear line.
#[derive(Clone, Copy, PartialEq, Eq)]
pub struct Lamps {
    pub going_up: bool,
    pub going_down: bool,
}

impl Lamps {
    pub const BOTH: Lamps = Lamps {
        going_up: true,
        going_down: true,
    };

    pub const NONE: Lamps = Lamps {
        going_up: false,
        going_down: false,
    };
}

// Hall calls standing in both directions: bit s is the call at stop s.
#[derive(Clone, Copy, PartialEq, Eq)]
pub struct HallCalls {
    pub up: u64,
    pub down: u64,
}

impl HallCalls {
    pub const NONE: HallCalls = HallCalls { up: 0, down: 0 };
}

#[derive(Clone, Copy)]
pub struct World {
    pub stops: Stops,
    pub lines: Table<Line, 8>,
    pub cars: Table<Car, 16>,
    pub riders: Table<Rider, 128>,
    pub calls: HallCalls,
    pub started: bool,
    // ticks made: the number of the next tick
    pub ticks: u64,
    pub total_moves: u64,
    pub reposition_distance: f64,
}
