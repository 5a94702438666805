// The records of edges (01, "The task file"): what an edge does to the task as far as it is read.
#![tactic(auto)]

pub mod edge;
