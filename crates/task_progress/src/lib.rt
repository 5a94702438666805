// What the records do to the task as far as it is read, whichever they are.
#![tactic(auto)]

ghost use Rattle.std.specs.Prelude.{◌≡◌};
ghost use Rattle.task.specs.TaskFile.{with_model};

use fra::{Model, Side, Task};

// The task with another model on a side.
pub fn with_model(t: Task, side: Side, m: Model) -> Task
    ensures { result ≡ with_model t side m }
{
    let mut u = t;
    match side {
        Side::Left => u.left = m,
        Side::Right => u.right = m,
    }
    u
}
