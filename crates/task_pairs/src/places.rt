// Where the records between the models and the end may stand.
ghost use Rattle.std.specs.Prelude.{◌≡◌};
ghost use Rattle.task_pairs.specs.Places.{among_pairs};

use fra::Side;
use task::Stage;

// A pair, or the history's size: both models are read, and neither that size nor the end.
pub fn among_pairs(stage: Stage) -> bool
    ensures { result ≡ among_pairs stage }
{
    matches!(stage, Stage::Edges(Side::Right) | Stage::Pairs)
}
