// Document 01's examples of the motion formulas and of the door that are not marked, and those that the Rust's own
// pages of cyclic.rs give. A line says which example it is, and whether it came out so.
#![tactic(auto)]

use door::{DoorState, DoorTransition};
use motion::cyclic::{cyclic_distance, forward_distance, wrap_position};
use motion::movement::headway_clamp_target;
use std::io;

fn outcome(got: f64, expected: f64) -> &'static str {
    if got == expected { "ok" } else { "DIFFERS" }
}

// Document 01's.
fn formulas(rt: &impl Print) -> io::Result<()> {
    let wrapped = wrap_position(3.0, 0.0);
    println!(rt; "wrap(3, 0) = 3: {}", outcome(wrapped, 3.0))?;
    let forward = forward_distance(8.0, 3.0, 10.0);
    println!(rt; "forward(8, 3, 10) = 5: {}", outcome(forward, 5.0))?;
    let clamped = headway_clamp_target(0.0, 2.0, 9.0, 3.0, 10.0);
    println!(rt;
        "headway (trailer 0, leader 2, target 9, headway 3, circle 10) = 0: {}",
        outcome(clamped, 0.0)
    )
}

// The ticks, of the first twelve, at which a phase ends.
fn phase_ends(rt: &impl Print) -> io::Result<()> {
    print!(rt; "request_open(3, 2) ends phases at ticks 3, 5, 8:")?;
    let mut door = DoorState::request_open(3, 2);
    for tick in 1..=12 {
        if door.tick() != DoorTransition::None {
            print!(rt; " {tick}")?;
        }
    }
    println!(rt; "")
}

// The examples of cyclic.rs: what its pages assert.
fn wraps(rt: &impl Print) -> io::Result<()> {
    for (position, expected) in [
        (0.0, 0.0),
        (50.0, 50.0),
        (100.0, 0.0),
        (125.0, 25.0),
        (-25.0, 75.0),
        (-100.0, 0.0),
    ] {
        let outcome = outcome(wrap_position(position, 100.0), expected);
        println!(rt; "wrap_position({position}, 100) = {expected}: {outcome}")?;
    }
    Ok(())
}

// A distance of two places on a circle of 100, by its name.
fn distances<F: Fn(f64, f64, f64) -> f64>(
    rt: &impl Print,
    name: &str,
    distance: F,
    cases: &[(f64, f64, f64)],
) -> io::Result<()>
    requires { F.IsAlwaysCallable distance }
{
    for (from, to, expected) in cases {
        let outcome = outcome(distance(*from, *to, 100.0), *expected);
        println!(rt; "{name}({from}, {to}, 100) = {expected}: {outcome}")?;
    }
    Ok(())
}

fn examples(rt: &impl Print) -> io::Result<()> {
    formulas(rt)?;
    phase_ends(rt)?;
    wraps(rt)?;
    let forward = [
        (10.0, 30.0, 20.0),
        (90.0, 10.0, 20.0),
        (50.0, 50.0, 0.0),
        (0.0, 99.0, 99.0),
        (110.0, 30.0, 20.0),
        (-10.0, 30.0, 40.0),
    ];
    distances(rt, "forward_distance", forward_distance, &forward)?;
    let cyclic = [
        (10.0, 30.0, 20.0),
        (90.0, 10.0, 20.0),
        (0.0, 50.0, 50.0),
        (0.0, 51.0, 49.0),
    ];
    distances(rt, "cyclic_distance", cyclic_distance, &cyclic)
}

fn main(rt: HostRuntime) {
    // where standard output takes nothing, there is nobody to tell
    let _ = examples(&rt);
}
