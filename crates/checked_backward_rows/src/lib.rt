// What a backward call with rows does: refused for the first reason that applies, or solved.
#![tactic(auto)]

ghost use Rattle.std.specs.Prelude.{false, ◌≡◌, List, ◌++◌, ℕ, ◌≤◌, length};
ghost use Rattle.refusals.specs.Refusals.{lengths_differ, row_tests};
ghost use Rattle.refusals.specs.Answered.{number_in};
ghost use Rattle.refusals.specs.Calls.{outcome_of};
ghost use Rattle.rules.specs.Ways.{push_backward};
ghost use Rattle.watching.specs.Watching.{watch_in};
ghost use Rattle.calls.specs.Lent.{besides, counted_for};
ghost use Rattle.calls.specs.Slices.{rows_lengths, given_rows_in, SameVectors, SameWorkspace};
ghost use Rattle.calls.specs.Promises.{Checks};
ghost use Rattle.backward_push.specs.Lent.{back_lengths, reversing};
ghost use Rattle.backward_push.specs.Slices.{back_lent_in, SameReverseBuffers};

use backward_push::reversed;
use backward_push::reversed::ReverseBuffers;
use calls::Counts;
use calls::lent::{Rows, Vectors, Workspace};
use refusals::Settings;
use refusals::refusal::Refusal;
use watching::Watched;

// Tests 1 to 5 of a call with rows. `other` says whether another buffer has another length than stated.
pub fn check_rows(
    other: bool,
    rows: Rows<'_>,
    listed: usize,
    vectors: &Vectors<'_>,
    reverse: &ReverseBuffers<'_>,
    workspace: &Workspace<'_>,
) -> Result<(), Refusal>
    ensures { (more : List (ℕ × ℕ)) → other ≡ lengths_differ false more
        → number_in result ≡ row_tests rows.entry.nodes listed (rows_lengths rows.entry ++ (more
        ++ back_lengths rows.entry.nodes (length rows.entry.columns.now) (back_lent_in reverse.now vectors.now workspace.now)))
        rows.entry.starts.now rows.entry.columns.now rows.entry.weights.now }
{
    let n = rows.nodes;
    let lists = calls::rows_lengths_differ(rows);
    let differ = reversed::reverse_lengths_differ(lists | other, n, rows.columns.len(), reverse);
    let differ = calls::solve_lengths_differ(
        differ,
        n,
        vectors.estimate.len(),
        vectors.residual.len(),
        reverse.in_degrees.len(),
        workspace.priorities.len(),
        workspace.nodes.len(),
        workspace.queued.len(),
        workspace.visited.len(),
    );
    refusals::check_rows(n, listed, differ, rows.starts, rows.columns, rows.weights)
}

// A backward call with rows: refused for the first reason that applies, or solved. `other` says whether another buffer of
// the call has another length than stated, `listed` is how many targets the call lists, 0 where it names one, and
// `further` what the tests after those of the settings say.
pub fn checked_rows(
    rows: Rows<'_>,
    targets: &[u32],
    other: bool,
    listed: usize,
    watch: Option<Watched>,
    settings: Settings,
    further: Result<(), Refusal>,
    vectors: &mut Vectors<'_>,
    reverse: &mut ReverseBuffers<'_>,
    workspace: &mut Workspace<'_>,
) -> Result<Counts, Refusal>
    requires { listed ≤ 65536 → length targets.now ≤ 65536 }
    ensures same_vectors { SameVectors vectors.old vectors.new }
    ensures same_reverse { SameReverseBuffers reverse.old reverse.new }
    ensures same_workspace { SameWorkspace workspace.old workspace.new }
    ensures checks { (more : List (ℕ × ℕ)) → other ≡ lengths_differ false more
        → Checks push_backward (given_rows_in (besides more reversing) rows.entry (back_lent_in reverse.old vectors.old workspace.old))
        settings (watch_in watch) targets.now listed (number_in further)
        (outcome_of (counted_for result) (back_lent_in reverse.new vectors.new workspace.new)) }
{
    check_rows(other, rows, listed, vectors, reverse, workspace)?;
    refusals::check_settings(settings)?;
    further?;
    Ok(backward_push::rows::solve_rows(rows, targets, watch, settings, vectors, reverse, workspace))
}
