// The fields of a record's body: its words and floats. Those of its head word are `layout`'s.
#![tactic(auto)]

pub mod body; // words and floats of a body, and their ranges
