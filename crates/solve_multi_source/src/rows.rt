// A forward solve from many sources, of rows.
ghost use Rattle.refusals.specs.Calls.{outcome_of};
ghost use Rattle.calls.specs.Lent.{solving, solved_for};
ghost use Rattle.calls.specs.Slices.{lent_in, given_rows_in, SameVectors, SameWorkspace};
ghost use Rattle.forward_push.specs.Outcomes.{solve_multi_source};

use calls::Summary;
use calls::lent::{Rows, Vectors, Workspace};
use refusals::Settings;
use refusals::refusal::Refusal;

pub fn solve_multi_source_rows(
    rows: Rows<'_>,
    sources: &[u32],
    settings: Settings,
    vectors: &mut Vectors<'_>,
    degrees: &mut [f64],
    workspace: &mut Workspace<'_>,
) -> Result<Summary, Refusal>
    ensures same_vectors { SameVectors vectors.old vectors.new }
    ensures same_workspace { SameWorkspace workspace.old workspace.new }
    ensures outcome { solve_multi_source (given_rows_in solving rows.entry (lent_in vectors.old degrees.old workspace.old))
        sources.now settings (outcome_of (solved_for result) (lent_in vectors.new degrees.new workspace.new)) }
{
    let counts = checked_forward_rows::checked_rows(
        rows,
        sources,
        sources.len(),
        None,
        settings,
        Ok(()),
        vectors,
        degrees,
        workspace,
    );
    calls::measured(counts, vectors)
}
