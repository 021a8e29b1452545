// What is printed of a tick: a line of its words, a line a car, a line with the counters and the hall calls.
ghost use Rattle.std.specs.Prelude.{◌<◌};

use door::DoorState;
use log_words::code_and_ticks;
use std::fmt;
use world::{Car, ElevatorPhase, World};

// A number in one digit, 8 or 16.
#[derive(Drop)]
struct Number(u64);

impl fmt::Display for Number {
    fn fmt<W: fmt::Write>(&self, f: &mut fmt::Formatter<W>) -> fmt::Result {
        let number = self.0;
        match number {
            0..=0xf => write!(f, "{number:x}"),
            0x10..=0xffff_ffff => write!(f, "{number:08x}"),
            _ => write!(f, "{number:016x}"),
        }
    }
}

// A float's bits. Any NaN is the positive quiet one.
// Stays: `float::number_bits` is 0 at a NaN, as it is at a zero; what is printed tells the two apart.
fn bits(x: f64) -> u64 {
    if x.is_nan() {
        0x7ff8_0000_0000_0000
    } else {
        x.to_bits()
    }
}

// A value, or a dash where there is none.
#[derive(Drop)]
struct OrDash<T>(Option<T>);

impl<T: fmt::Display> fmt::Display for OrDash<T> {
    fn fmt<W: fmt::Write>(&self, f: &mut fmt::Formatter<W>) -> fmt::Result {
        match &self.0 {
            Some(value) => write!(f, "{value}"),
            None => write!(f, "-"),
        }
    }
}

#[derive(Drop)]
struct Stop(u8);

impl fmt::Display for Stop {
    fn fmt<W: fmt::Write>(&self, f: &mut fmt::Formatter<W>) -> fmt::Result {
        write!(f, "{:02x}", self.0)
    }
}

// The phase's number in the Rust's order, and its stop.
#[derive(Drop)]
struct Phase(ElevatorPhase);

impl fmt::Display for Phase {
    fn fmt<W: fmt::Write>(&self, f: &mut fmt::Formatter<W>) -> fmt::Result {
        match self.0 {
            ElevatorPhase::Idle => write!(f, "0"),
            ElevatorPhase::MovingToStop(stop) => write!(f, "1{}", Stop(stop)),
            ElevatorPhase::Repositioning(stop) => write!(f, "2{}", Stop(stop)),
            ElevatorPhase::DoorOpening => write!(f, "3"),
            ElevatorPhase::Loading => write!(f, "4"),
            ElevatorPhase::DoorClosing => write!(f, "5"),
            ElevatorPhase::Stopped => write!(f, "6"),
        }
    }
}

// The door's number in the Rust's order, and its fields.
#[derive(Drop)]
struct Door(DoorState);

impl fmt::Display for Door {
    fn fmt<W: fmt::Write>(&self, f: &mut fmt::Formatter<W>) -> fmt::Result {
        match self.0 {
            DoorState::Closed => write!(f, "0"),
            DoorState::Opening {
                ticks_remaining,
                open_duration,
                close_duration,
            } => write!(
                f,
                "1,{},{},{}",
                Number(ticks_remaining.into()),
                Number(open_duration.into()),
                Number(close_duration.into())
            ),
            DoorState::Open {
                ticks_remaining,
                close_duration,
            } => write!(
                f,
                "2,{},{}",
                Number(ticks_remaining.into()),
                Number(close_duration.into())
            ),
            DoorState::Closing { ticks_remaining } => write!(
                f,
                "3,{}",
                Number(ticks_remaining.into())
            ),
        }
    }
}

// The lamps up, down and forward and the repositioning flag, as one digit.
fn marks(car: &Car) -> u8
    ensures { result < 16 }
{
    8 * u8::from(car.lamps.going_up)
        + 4 * u8::from(car.lamps.going_down)
        + 2 * u8::from(car.going_forward)
        + u8::from(car.repositioning)
}

// The stops that a car goes to.
#[derive(Drop)]
struct Destinations<'a>(&'a Car);

impl fmt::Display for Destinations<'_> {
    fn fmt<W: fmt::Write>(&self, f: &mut fmt::Formatter<W>) -> fmt::Result {
        let car = self.0;
        for stop in car.destination_queue.as_slice() {
            write!(f, "{}", Stop(*stop))?;
        }
        Ok(())
    }
}

// A car's door commands: each a code and its ticks, five digits.
#[derive(Drop)]
struct Commands<'a>(&'a Car);

impl fmt::Display for Commands<'_> {
    fn fmt<W: fmt::Write>(&self, f: &mut fmt::Formatter<W>) -> fmt::Result {
        let car = self.0;
        let queue = car.door_command_queue;
        for command in queue.as_slice() {
            let (code, ticks) = code_and_ticks(*command);
            write!(f, "{code}{ticks:04x}")?;
        }
        Ok(())
    }
}

// A car's line: position, velocity, phase, door; marks, target, destinations, door commands; moves, cooldown.
#[derive(Drop)]
struct CarLine<'a>(&'a Car);

impl fmt::Display for CarLine<'_> {
    fn fmt<W: fmt::Write>(&self, f: &mut fmt::Formatter<W>) -> fmt::Result {
        let car = self.0;
        write!(
            f,
            "{:016x} {:016x} {} {} ",
            bits(car.motion.position),
            bits(car.motion.velocity),
            Phase(car.phase),
            Door(car.door)
        )?;
        write!(
            f,
            "{:x} {} d{} q{} ",
            marks(car),
            OrDash(car.target_stop.map(Stop)),
            Destinations(car),
            Commands(car)
        )?;
        write!(
            f,
            "{} {}",
            Number(car.move_count),
            OrDash(car.cooldown.map(Number))
        )
    }
}

// A tick: the words that it wrote, and the world after it.
#[derive(Drop)]
pub(crate) struct Tick<'a> {
    pub(crate) words: &'a [u32],
    pub(crate) world: &'a World,
}

impl fmt::Display for Tick<'_> {
    fn fmt<W: fmt::Write>(&self, f: &mut fmt::Formatter<W>) -> fmt::Result {
        let world = self.world;
        for word in self.words {
            write!(f, "{word:08x} ")?;
        }
        writeln!(f, "")?;
        for car in world.cars.as_slice() {
            writeln!(f, "{}", CarLine(car))?;
        }
        writeln!(
            f,
            "{} {:016x} {} {}",
            Number(world.total_moves),
            bits(world.reposition_distance),
            Number(world.calls.up),
            Number(world.calls.down)
        )
    }
}
