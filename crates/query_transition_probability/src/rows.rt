// The score of the source in a backward solve from one target, of rows.
ghost use Rattle.std.specs.Prelude.{◌≡◌};
ghost use Rattle.refusals.specs.Calls.{outcome_of};
ghost use Rattle.calls.specs.Lent.{scored_for};
ghost use Rattle.calls.specs.Slices.{given_rows_in, SameVectors, SameWorkspace};
ghost use Rattle.backward_push.specs.Lent.{reversing};
ghost use Rattle.backward_push.specs.Slices.{back_lent_in, SameReverseBuffers};
ghost use Rattle.backward_push.specs.Outcomes.{query_transition_probability};

use backward_push::reversed::ReverseBuffers;
use calls::lent::{Rows, Vectors, Workspace};
use refusals::Settings;
use refusals::refusal::Refusal;

pub fn query_transition_probability_rows(
    rows: Rows<'_>,
    source: u32,
    target: u32,
    settings: Settings,
    vectors: &mut Vectors<'_>,
    reverse: &mut ReverseBuffers<'_>,
    workspace: &mut Workspace<'_>,
) -> Result<f64, Refusal>
    ensures same_vectors { SameVectors vectors.old vectors.new }
    ensures same_reverse { SameReverseBuffers reverse.old reverse.new }
    ensures same_workspace { SameWorkspace workspace.old workspace.new }
    ensures outcome { outcome_of (scored_for result) (back_lent_in reverse.new vectors.new workspace.new)
        ≡ query_transition_probability (given_rows_in reversing rows.entry (back_lent_in reverse.old vectors.old workspace.old))
        source target settings }
{
    let one = [target];
    let counts = checked_backward_rows::checked_rows(
        rows,
        &one,
        false,
        0,
        None,
        settings,
        Ok(()),
        vectors,
        reverse,
        workspace,
    );
    calls::answered(counts, vectors, source)
}
