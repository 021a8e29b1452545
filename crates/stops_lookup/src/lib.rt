// What is looked up in the world: stops by position, what a line serves.
#![tactic(auto)]

pub mod stops;
