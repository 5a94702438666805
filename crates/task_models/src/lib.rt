// The records that announce a model (01, "The task file"): what a header and a state do to the task as far as it is read.
#![tactic(auto)]

pub mod header;
pub mod state;
