// What the tests beside the Rust and the bench call: functions that no other crate exports, on plain numbers.
#![tactic(auto)]

pub mod doors; // the door of crate `door`
pub mod floats; // f64's methods, fma and the manual ramp of crate `motion_velocity`
