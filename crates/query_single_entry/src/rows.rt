// The score of the target in a forward solve from one source, of rows.
ghost use Rattle.std.specs.Prelude.{◌≡◌};
ghost use Rattle.refusals.specs.Calls.{outcome_of};
ghost use Rattle.calls.specs.Lent.{solving, scored_for};
ghost use Rattle.calls.specs.Slices.{lent_in, given_rows_in, SameVectors, SameWorkspace};
ghost use Rattle.forward_push.specs.Outcomes.{query_single_entry};

use calls::lent::{Rows, Vectors, Workspace};
use refusals::Settings;
use refusals::refusal::Refusal;

pub fn query_single_entry_rows(
    rows: Rows<'_>,
    source: u32,
    target: u32,
    settings: Settings,
    vectors: &mut Vectors<'_>,
    degrees: &mut [f64],
    workspace: &mut Workspace<'_>,
) -> Result<f64, Refusal>
    ensures same_vectors { SameVectors vectors.old vectors.new }
    ensures same_workspace { SameWorkspace workspace.old workspace.new }
    ensures outcome { outcome_of (scored_for result) (lent_in vectors.new degrees.new workspace.new)
        ≡ query_single_entry (given_rows_in solving rows.entry (lent_in vectors.old degrees.old workspace.old))
        source target settings }
{
    let one = [source];
    let counts = checked_forward_rows::checked_rows(
        rows,
        &one,
        0,
        None,
        settings,
        Ok(()),
        vectors,
        degrees,
        workspace,
    );
    calls::answered(counts, vectors, target)
}
