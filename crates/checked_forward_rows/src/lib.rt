// What a forward call with rows does: refused for the first reason that applies, or solved.
#![tactic(auto)]

ghost use Rattle.std.specs.Prelude.{◌≡◌, ◌++◌, ◌≤◌, length};
ghost use Rattle.refusals.specs.Refusals.{row_tests};
ghost use Rattle.refusals.specs.Answered.{number_in};
ghost use Rattle.refusals.specs.Calls.{outcome_of};
ghost use Rattle.rules.specs.Ways.{push_forward};
ghost use Rattle.watching.specs.Watching.{watch_in};
ghost use Rattle.calls.specs.Lent.{solve_lengths, solving, counted_for};
ghost use Rattle.calls.specs.Slices.{lent_in, rows_lengths, given_rows_in, SameVectors, SameWorkspace};
ghost use Rattle.calls.specs.Promises.{Checks};

use calls::Counts;
use calls::lent::{Rows, Vectors, Workspace};
use refusals::Settings;
use refusals::refusal::Refusal;
use watching::Watched;

// Tests 1 to 5 of a call with rows.
fn check_rows(
    rows: Rows<'_>,
    listed: usize,
    vectors: &Vectors<'_>,
    degrees: &[f64],
    workspace: &Workspace<'_>,
) -> Result<(), Refusal>
    ensures { number_in result ≡ row_tests rows.entry.nodes listed
        (rows_lengths rows.entry ++ solve_lengths rows.entry.nodes (lent_in vectors.now degrees.now workspace.now))
        rows.entry.starts.now rows.entry.columns.now rows.entry.weights.now }
{
    let lists = calls::rows_lengths_differ(rows);
    let differ = calls::solve_lengths_differ(
        lists,
        rows.nodes,
        vectors.estimate.len(),
        vectors.residual.len(),
        degrees.len(),
        workspace.priorities.len(),
        workspace.nodes.len(),
        workspace.queued.len(),
        workspace.visited.len(),
    );
    refusals::check_rows(
        rows.nodes,
        listed,
        differ,
        rows.starts,
        rows.columns,
        rows.weights,
    )
}

// A forward call with rows: refused for the first reason that applies, or solved. `listed` is how many sources the
// call lists, 0 where it names one, and `further` what the tests after those of the settings say.
pub fn checked_rows(
    rows: Rows<'_>,
    sources: &[u32],
    listed: usize,
    watch: Option<Watched>,
    settings: Settings,
    further: Result<(), Refusal>,
    vectors: &mut Vectors<'_>,
    degrees: &mut [f64],
    workspace: &mut Workspace<'_>,
) -> Result<Counts, Refusal>
    requires { listed ≤ 65536 → length sources.now ≤ 65536 }
    ensures same_vectors { SameVectors vectors.old vectors.new }
    ensures same_workspace { SameWorkspace workspace.old workspace.new }
    ensures checks { Checks push_forward (given_rows_in solving rows.entry (lent_in vectors.old degrees.old workspace.old))
        settings (watch_in watch) sources.now listed (number_in further)
        (outcome_of (counted_for result) (lent_in vectors.new degrees.new workspace.new)) }
{
    check_rows(rows, listed, vectors, degrees, workspace)?;
    refusals::check_settings(settings)?;
    further?;
    Ok(forward_push::rows::solve_rows(rows, sources, watch, settings, vectors, degrees, workspace))
}
