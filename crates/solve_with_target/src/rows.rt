// A forward solve from one source that stops early, where the estimate of the target is precise enough, of rows.
ghost use Rattle.refusals.specs.Calls.{outcome_of};
ghost use Rattle.calls.specs.Lent.{solving, solved_for};
ghost use Rattle.calls.specs.Slices.{lent_in, given_rows_in, SameVectors, SameWorkspace};
ghost use Rattle.forward_push.specs.Outcomes.{solve_with_target};

use calls::Summary;
use calls::lent::{Rows, Vectors, Workspace};
use refusals::Settings;
use refusals::refusal::Refusal;
use watching::Watched;

pub fn solve_with_target_rows(
    rows: Rows<'_>,
    source: u32,
    target: u32,
    target_precision: f64,
    settings: Settings,
    vectors: &mut Vectors<'_>,
    degrees: &mut [f64],
    workspace: &mut Workspace<'_>,
) -> Result<Summary, Refusal>
    ensures same_vectors { SameVectors vectors.old vectors.new }
    ensures same_workspace { SameWorkspace workspace.old workspace.new }
    ensures outcome { solve_with_target (given_rows_in solving rows.entry (lent_in vectors.old degrees.old workspace.old))
        source target target_precision settings (outcome_of (solved_for result) (lent_in vectors.new degrees.new workspace.new)) }
{
    let one = [source];
    let further = refusals::check_precision(target_precision);
    let counts = checked_forward_rows::checked_rows(
        rows,
        &one,
        0,
        Some(Watched {
            node: target,
            precision: target_precision,
        }),
        settings,
        further,
        vectors,
        degrees,
        workspace,
    );
    calls::measured(counts, vectors)
}
