// Bidirectional and adaptive solves of a list of links, for the public calls: the rows are made in lent buffers, solved and
// cleared.
#![tactic(auto)]

ghost use Rattle.std.specs.Prelude.{◌≡◌, [], ◌+◌, length};
ghost use Rattle.refusals.specs.Refusals.{Sound};
ghost use Rattle.refusals.specs.Calls.{outcome_of};
ghost use Rattle.graph.specs.Store.{Buffers};
ghost use Rattle.calls.specs.Lent.{scored_for};
ghost use Rattle.calls.specs.Slices.{lent_in, rows_lent_in, given_links_in, SameRowBuffers, SameVectors, SameWorkspace};
ghost use Rattle.calls.specs.Promises.{Fits};
ghost use Rattle.backward_push.specs.Slices.{SameReverseBuffers};
ghost use Rattle.bidirectional_push.specs.Lent.{both_lent_in, joining};
ghost use Rattle.bidirectional_push.specs.Promises.{Joins, ChecksBoth};

use backward_push::reversed::ReverseBuffers;
use bidirectional_push::rows::solve_rows;
use calls::lent::{Links, RowBuffers, Rows, Vectors, Workspace};
use refusals::Settings;
use refusals::refusal::Refusal;

// The solves of a list of links that a method uses, and the score. The queue's nodes serve as positions while the rows
// are made.
fn solve_links(
    links: Links<'_>,
    source: u32,
    target: u32,
    adaptive: bool,
    forward_settings: Settings,
    backward_settings: Settings,
    forward: &mut Vectors<'_>,
    backward: &mut Vectors<'_>,
    made: &mut RowBuffers<'_>,
    reverse: &mut ReverseBuffers<'_>,
    workspace: &mut Workspace<'_>,
) -> f64
    requires { Buffers links.nodes links.from.now links.to.now links.weight.now made.old.starts.now made.old.columns.now made.old.weights.now workspace.old.nodes.now
        × (length reverse.old.starts.now ≡ links.nodes + 1) × (length reverse.old.columns.now ≡ length links.from.now)
        × (length reverse.old.weights.now ≡ length links.from.now) × (length reverse.old.out_degrees.now ≡ links.nodes)
        × (length forward.old.estimate.now ≡ links.nodes) × (length forward.old.residual.now ≡ links.nodes)
        × Fits links.nodes [] (lent_in backward.old reverse.old.in_degrees.now workspace.old)
        × Sound forward_settings × Sound backward_settings }
    ensures same_forward { SameVectors forward.old forward.new }
    ensures same_backward { SameVectors backward.old backward.new }
    ensures same_rows { SameRowBuffers made.old made.new }
    ensures same_reverse { SameReverseBuffers reverse.old reverse.new }
    ensures same_workspace { SameWorkspace workspace.old workspace.new }
    ensures joins { Joins adaptive (given_links_in joining links.entry (rows_lent_in made.old (both_lent_in forward.old backward.old reverse.old workspace.old)))
        source target forward_settings backward_settings
        (outcome_of result (rows_lent_in made.new (both_lent_in forward.new backward.new reverse.new workspace.new))) }
{
    graph::build_rows(
        links.nodes,
        links.from,
        links.to,
        links.weight,
        made.starts,
        made.columns,
        made.weights,
        workspace.nodes,
    );
    // Lent anew first: if the fields themselves were lent to be read, the proof would know only their lengths afterwards.
    let starts = &mut *made.starts;
    let columns = &mut *made.columns;
    let weights = &mut *made.weights;
    let rows = Rows {
        nodes: links.nodes,
        starts,
        columns,
        weights,
    };
    let score = solve_rows(
        rows,
        source,
        target,
        adaptive,
        forward_settings,
        backward_settings,
        forward,
        backward,
        reverse,
        workspace,
    );
    made.starts.fill(0);
    made.columns.fill(0);
    made.weights.fill(0.0);
    score
}

// A bidirectional or adaptive call with a list of links: refused for the first reason that applies, or solved.
pub fn checked_links(
    links: Links<'_>,
    source: u32,
    target: u32,
    adaptive: bool,
    forward_settings: Settings,
    backward_settings: Settings,
    forward: &mut Vectors<'_>,
    backward: &mut Vectors<'_>,
    made: &mut RowBuffers<'_>,
    reverse: &mut ReverseBuffers<'_>,
    workspace: &mut Workspace<'_>,
) -> Result<f64, Refusal>
    ensures same_forward { SameVectors forward.old forward.new }
    ensures same_backward { SameVectors backward.old backward.new }
    ensures same_rows { SameRowBuffers made.old made.new }
    ensures same_reverse { SameReverseBuffers reverse.old reverse.new }
    ensures same_workspace { SameWorkspace workspace.old workspace.new }
    ensures checks { ChecksBoth adaptive (given_links_in joining links.entry (rows_lent_in made.old (both_lent_in forward.old backward.old reverse.old workspace.old)))
        source target forward_settings backward_settings
        (outcome_of (scored_for result) (rows_lent_in made.new (both_lent_in forward.new backward.new reverse.new workspace.new))) }
{
    let k = links.nodes as usize;
    let differ = (forward.estimate.len() != k) | (forward.residual.len() != k);
    checked_backward_links::check_links(differ, links, 0, backward, made, reverse, workspace)?;
    refusals::check_settings(forward_settings)?;
    refusals::check_settings(backward_settings)?;
    Ok(solve_links(
        links,
        source,
        target,
        adaptive,
        forward_settings,
        backward_settings,
        forward,
        backward,
        made,
        reverse,
        workspace,
    ))
}
