// The motion formulas of elevator-core on f64, bit for bit: components/cyclic.rs and movement.rs.
#![tactic(auto)]

pub mod cyclic; // components/cyclic.rs
pub mod movement; // movement.rs
