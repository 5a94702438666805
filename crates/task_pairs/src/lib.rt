// The records after both models (01, "The task file"; 02, ticket 2): what a pair, the history's size and the end do to the task as
// far as it is read.
#![tactic(auto)]

pub mod end;
pub mod history;
pub mod pair;
pub mod places;
