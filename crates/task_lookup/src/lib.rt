// What stands where: bytes of a string, registers of one set in another, states and edges of a model.
#![tactic(auto)]

pub mod bytes;
pub mod models;
pub mod sets;
