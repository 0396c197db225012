// Backward solves of a list of links, for the public calls: the rows are made in lent buffers, solved and cleared.
#![tactic(auto)]

ghost use Rattle.std.specs.Prelude.{false, ◌≡◌, List, ◌++◌, ℕ, ◌+◌, ◌≤◌, length};
ghost use Rattle.refusals.specs.Refusals.{lengths_differ, Sound, link_tests};
ghost use Rattle.refusals.specs.Answered.{number_in};
ghost use Rattle.refusals.specs.Calls.{outcome_of};
ghost use Rattle.graph.specs.Store.{Buffers};
ghost use Rattle.rules.specs.Ways.{push_backward};
ghost use Rattle.watching.specs.Watching.{watch_in};
ghost use Rattle.calls.specs.Lent.{besides, done_counts, counted_for};
ghost use Rattle.calls.specs.Slices.{lent_in, rows_lent_in, links_lengths, given_links_in, SameRowBuffers, SameVectors, SameWorkspace};
ghost use Rattle.calls.specs.Promises.{Fits, Settles, Checks};
ghost use Rattle.backward_push.specs.Lent.{back_lengths, reversing};
ghost use Rattle.backward_push.specs.Slices.{back_lent_in, SameReverseBuffers};

use backward_push::reversed;
use backward_push::reversed::ReverseBuffers;
use backward_push::rows::solve_rows;
use calls::Counts;
use calls::lent::{Links, RowBuffers, Rows, Vectors, Workspace};
use refusals::Settings;
use refusals::refusal::Refusal;
use watching::Watched;

// Tests 1 to 5 of a call with a list of links. `other` says whether another buffer has another length than stated.
pub fn check_links(
    other: bool,
    links: Links<'_>,
    listed: usize,
    vectors: &Vectors<'_>,
    made: &RowBuffers<'_>,
    reverse: &ReverseBuffers<'_>,
    workspace: &Workspace<'_>,
) -> Result<(), Refusal>
    ensures { (more : List (ℕ × ℕ)) → other ≡ lengths_differ false more
        → number_in result ≡ link_tests links.entry.nodes (length links.entry.from.now) listed (links_lengths links.entry made.now ++ (more
        ++ back_lengths links.entry.nodes (length links.entry.from.now) (back_lent_in reverse.now vectors.now workspace.now)))
        links.entry.weight.now }
{
    let n = links.nodes;
    let m = links.from.len();
    let lists = calls::links_lengths_differ(links, made);
    let differ = reversed::reverse_lengths_differ(lists | other, n, m, reverse);
    let differ = calls::solve_lengths_differ(
        differ,
        n,
        vectors.estimate.len(),
        vectors.residual.len(),
        reverse.in_degrees.len(),
        workspace.priorities.len(),
        workspace.nodes.len(),
        workspace.queued.len(),
        workspace.visited.len(),
    );
    refusals::check_links(n as usize, m, listed, differ, links.weight)
}

// A backward solve of a list of links. The queue's nodes serve as positions while the rows are made.
fn solve_links(
    links: Links<'_>,
    targets: &[u32],
    watch: Option<Watched>,
    settings: Settings,
    vectors: &mut Vectors<'_>,
    made: &mut RowBuffers<'_>,
    reverse: &mut ReverseBuffers<'_>,
    workspace: &mut Workspace<'_>,
) -> Counts
    requires { Buffers links.nodes links.from.now links.to.now links.weight.now made.old.starts.now made.old.columns.now made.old.weights.now workspace.old.nodes.now
        × (length reverse.old.starts.now ≡ links.nodes + 1) × (length reverse.old.columns.now ≡ length links.from.now)
        × (length reverse.old.weights.now ≡ length links.from.now) × (length reverse.old.out_degrees.now ≡ links.nodes)
        × Fits links.nodes targets.now (lent_in vectors.old reverse.old.in_degrees.now workspace.old) × Sound settings }
    ensures same_vectors { SameVectors vectors.old vectors.new }
    ensures same_rows { SameRowBuffers made.old made.new }
    ensures same_reverse { SameReverseBuffers reverse.old reverse.new }
    ensures same_workspace { SameWorkspace workspace.old workspace.new }
    ensures settles { Settles push_backward (given_links_in reversing links.entry (rows_lent_in made.old (back_lent_in reverse.old vectors.old workspace.old)))
        settings (watch_in watch) targets.now
        (outcome_of (done_counts result) (rows_lent_in made.new (back_lent_in reverse.new vectors.new workspace.new))) }
{
    graph::build_rows(
        links.nodes,
        links.from,
        links.to,
        links.weight,
        made.starts,
        made.columns,
        made.weights,
        workspace.nodes,
    );
    // Lent anew first: if the fields themselves were lent to be read, the proof would know only their lengths afterwards.
    let starts = &mut *made.starts;
    let columns = &mut *made.columns;
    let weights = &mut *made.weights;
    let rows = Rows {
        nodes: links.nodes,
        starts,
        columns,
        weights,
    };
    let counts = solve_rows(rows, targets, watch, settings, vectors, reverse, workspace);
    made.starts.fill(0);
    made.columns.fill(0);
    made.weights.fill(0.0);
    counts
}

// A backward call with a list of links: refused for the first reason that applies, or solved. `other` says whether
// another buffer of the call has another length than stated, `listed` is how many targets the call lists, 0 where it
// names one, and `further` what the tests after those of the settings say.
pub fn checked_links(
    links: Links<'_>,
    targets: &[u32],
    other: bool,
    listed: usize,
    watch: Option<Watched>,
    settings: Settings,
    further: Result<(), Refusal>,
    vectors: &mut Vectors<'_>,
    made: &mut RowBuffers<'_>,
    reverse: &mut ReverseBuffers<'_>,
    workspace: &mut Workspace<'_>,
) -> Result<Counts, Refusal>
    requires { listed ≤ 65536 → length targets.now ≤ 65536 }
    ensures same_vectors { SameVectors vectors.old vectors.new }
    ensures same_rows { SameRowBuffers made.old made.new }
    ensures same_reverse { SameReverseBuffers reverse.old reverse.new }
    ensures same_workspace { SameWorkspace workspace.old workspace.new }
    ensures checks { (more : List (ℕ × ℕ)) → other ≡ lengths_differ false more
        → Checks push_backward (given_links_in (besides more reversing) links.entry (rows_lent_in made.old (back_lent_in reverse.old vectors.old workspace.old)))
        settings (watch_in watch) targets.now listed (number_in further)
        (outcome_of (counted_for result) (rows_lent_in made.new (back_lent_in reverse.new vectors.new workspace.new))) }
{
    check_links(other, links, listed, vectors, made, reverse, workspace)?;
    refusals::check_settings(settings)?;
    further?;
    Ok(solve_links(
        links, targets, watch, settings, vectors, made, reverse, workspace,
    ))
}
