// Forward solves of a list of links, for the public calls: the rows are made in lent buffers, solved and cleared.
#![tactic(auto)]

ghost use Rattle.std.specs.Prelude.{◌≡◌, ◌++◌, ◌≤◌, length};
ghost use Rattle.refusals.specs.Refusals.{Sound, link_tests};
ghost use Rattle.refusals.specs.Answered.{number_in};
ghost use Rattle.refusals.specs.Calls.{outcome_of};
ghost use Rattle.graph.specs.Store.{Buffers};
ghost use Rattle.rules.specs.Ways.{push_forward};
ghost use Rattle.watching.specs.Watching.{watch_in};
ghost use Rattle.calls.specs.Lent.{solve_lengths, solving, done_counts, counted_for};
ghost use Rattle.calls.specs.Slices.{lent_in, rows_lent_in, links_lengths, given_links_in, SameRowBuffers, SameVectors, SameWorkspace};
ghost use Rattle.calls.specs.Promises.{Fits, Settles, Checks};

use calls::Counts;
use calls::lent::{Links, RowBuffers, Rows, Vectors, Workspace};
use forward_push::rows::solve_rows;
use refusals::Settings;
use refusals::refusal::Refusal;
use watching::Watched;

// Tests 1 to 5 of a call with a list of links.
fn check_links(
    links: Links<'_>,
    listed: usize,
    vectors: &Vectors<'_>,
    made: &RowBuffers<'_>,
    degrees: &[f64],
    workspace: &Workspace<'_>,
) -> Result<(), Refusal>
    ensures { number_in result ≡ link_tests links.entry.nodes (length links.entry.from.now) listed
        (links_lengths links.entry made.now ++ solve_lengths links.entry.nodes (lent_in vectors.now degrees.now workspace.now))
        links.entry.weight.now }
{
    let lists = calls::links_lengths_differ(links, made);
    let differ = calls::solve_lengths_differ(
        lists,
        links.nodes,
        vectors.estimate.len(),
        vectors.residual.len(),
        degrees.len(),
        workspace.priorities.len(),
        workspace.nodes.len(),
        workspace.queued.len(),
        workspace.visited.len(),
    );
    refusals::check_links(
        links.nodes as usize,
        links.from.len(),
        listed,
        differ,
        links.weight,
    )
}

// A forward solve of a list of links. The queue's nodes serve as positions while the rows are made.
fn solve_links(
    links: Links<'_>,
    sources: &[u32],
    watch: Option<Watched>,
    settings: Settings,
    vectors: &mut Vectors<'_>,
    made: &mut RowBuffers<'_>,
    degrees: &mut [f64],
    workspace: &mut Workspace<'_>,
) -> Counts
    requires { Buffers links.nodes links.from.now links.to.now links.weight.now made.old.starts.now made.old.columns.now made.old.weights.now workspace.old.nodes.now
        × Fits links.nodes sources.now (lent_in vectors.old degrees.old workspace.old) × Sound settings }
    ensures same_vectors { SameVectors vectors.old vectors.new }
    ensures same_rows { SameRowBuffers made.old made.new }
    ensures same_workspace { SameWorkspace workspace.old workspace.new }
    ensures settles { Settles push_forward (given_links_in solving links.entry (rows_lent_in made.old (lent_in vectors.old degrees.old workspace.old)))
        settings (watch_in watch) sources.now
        (outcome_of (done_counts result) (rows_lent_in made.new (lent_in vectors.new degrees.new workspace.new))) }
{
    graph::build_rows(
        links.nodes,
        links.from,
        links.to,
        links.weight,
        made.starts,
        made.columns,
        made.weights,
        workspace.nodes,
    );
    // Lent anew first: if the fields themselves were lent to be read, the proof would know only their lengths afterwards.
    let starts = &mut *made.starts;
    let columns = &mut *made.columns;
    let weights = &mut *made.weights;
    let rows = Rows {
        nodes: links.nodes,
        starts,
        columns,
        weights,
    };
    let counts = solve_rows(rows, sources, watch, settings, vectors, degrees, workspace);
    made.starts.fill(0);
    made.columns.fill(0);
    made.weights.fill(0.0);
    counts
}

// A forward call with a list of links: refused for the first reason that applies, or solved. `listed` is how many
// sources the call lists, 0 where it names one, and `further` what the tests after those of the settings say.
pub fn checked_links(
    links: Links<'_>,
    sources: &[u32],
    listed: usize,
    watch: Option<Watched>,
    settings: Settings,
    further: Result<(), Refusal>,
    vectors: &mut Vectors<'_>,
    made: &mut RowBuffers<'_>,
    degrees: &mut [f64],
    workspace: &mut Workspace<'_>,
) -> Result<Counts, Refusal>
    requires { listed ≤ 65536 → length sources.now ≤ 65536 }
    ensures same_vectors { SameVectors vectors.old vectors.new }
    ensures same_rows { SameRowBuffers made.old made.new }
    ensures same_workspace { SameWorkspace workspace.old workspace.new }
    ensures checks { Checks push_forward (given_links_in solving links.entry (rows_lent_in made.old (lent_in vectors.old degrees.old workspace.old)))
        settings (watch_in watch) sources.now listed (number_in further)
        (outcome_of (counted_for result) (rows_lent_in made.new (lent_in vectors.new degrees.new workspace.new))) }
{
    check_links(links, listed, vectors, made, degrees, workspace)?;
    refusals::check_settings(settings)?;
    further?;
    Ok(solve_links(
        links, sources, watch, settings, vectors, made, degrees, workspace,
    ))
}
