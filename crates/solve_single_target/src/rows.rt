// A backward solve from one target, of rows.
ghost use Rattle.refusals.specs.Calls.{outcome_of};
ghost use Rattle.calls.specs.Lent.{solved_for};
ghost use Rattle.calls.specs.Slices.{given_rows_in, SameVectors, SameWorkspace};
ghost use Rattle.backward_push.specs.Lent.{reversing};
ghost use Rattle.backward_push.specs.Slices.{back_lent_in, SameReverseBuffers};
ghost use Rattle.backward_push.specs.Outcomes.{solve_single_target};

use backward_push::reversed::ReverseBuffers;
use calls::Summary;
use calls::lent::{Rows, Vectors, Workspace};
use refusals::Settings;
use refusals::refusal::Refusal;

pub fn solve_single_target_rows(
    rows: Rows<'_>,
    target: u32,
    settings: Settings,
    vectors: &mut Vectors<'_>,
    reverse: &mut ReverseBuffers<'_>,
    workspace: &mut Workspace<'_>,
) -> Result<Summary, Refusal>
    ensures same_vectors { SameVectors vectors.old vectors.new }
    ensures same_reverse { SameReverseBuffers reverse.old reverse.new }
    ensures same_workspace { SameWorkspace workspace.old workspace.new }
    ensures outcome { solve_single_target (given_rows_in reversing rows.entry (back_lent_in reverse.old vectors.old workspace.old))
        target settings (outcome_of (solved_for result) (back_lent_in reverse.new vectors.new workspace.new)) }
{
    let one = [target];
    let counts = checked_backward_rows::checked_rows(
        rows,
        &one,
        false,
        0,
        None,
        settings,
        Ok(()),
        vectors,
        reverse,
        workspace,
    );
    calls::measured(counts, vectors)
}
