// The calls that lend a list of structs or hold a slice in a struct: thin layers over crates that take slices and arrays.
#![tactic(auto)]

pub mod list;
pub mod rows;
pub mod walker;
