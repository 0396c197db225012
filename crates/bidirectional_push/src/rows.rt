// Bidirectional and adaptive solves of lent rows that passed every test, which leave the workspace cleared.
ghost use Rattle.std.specs.Prelude.{◌≡◌, [], length};
ghost use Rattle.refusals.specs.Calls.{outcome_of};
ghost use Rattle.refusals.specs.Refusals.{Sound};
ghost use Rattle.graph.specs.Store.{RowBuffers};
ghost use Rattle.calls.specs.Slices.{lent_in, given_rows_in, SameVectors, SameWorkspace};
ghost use Rattle.calls.specs.Promises.{Fits};
ghost use Rattle.backward_push.specs.Slices.{SameReverseBuffers};
ghost use Rattle.bidirectional_push.specs.Lent.{both_lent_in, joining};
ghost use Rattle.bidirectional_push.specs.Promises.{Joins};

use backward_push::reversed;
use backward_push::reversed::ReverseBuffers;
use calls::lent;
use calls::lent::{Rows, Vectors, Workspace};
use combination::methods;
use refusals::Settings;

// The solves of rows that a method uses, and the score. One that is not used starts nowhere, which fills its vectors with
// +0. The queue's nodes serve as positions while the rows are reversed.
pub fn solve_rows(
    rows: Rows<'_>,
    source: u32,
    target: u32,
    adaptive: bool,
    forward_settings: Settings,
    backward_settings: Settings,
    forward: &mut Vectors<'_>,
    backward: &mut Vectors<'_>,
    reverse: &mut ReverseBuffers<'_>,
    workspace: &mut Workspace<'_>,
) -> f64
    requires { RowBuffers rows.nodes rows.starts.now rows.columns.now rows.weights.now reverse.old.starts.now reverse.old.columns.now reverse.old.weights.now workspace.old.nodes.now
        × (length reverse.old.out_degrees.now ≡ rows.nodes)
        × (length forward.old.estimate.now ≡ rows.nodes) × (length forward.old.residual.now ≡ rows.nodes)
        × Fits rows.nodes [] (lent_in backward.old reverse.old.in_degrees.now workspace.old)
        × Sound forward_settings × Sound backward_settings }
    ensures same_forward { SameVectors forward.old forward.new }
    ensures same_backward { SameVectors backward.old backward.new }
    ensures same_reverse { SameReverseBuffers reverse.old reverse.new }
    ensures same_workspace { SameWorkspace workspace.old workspace.new }
    ensures joins { Joins adaptive (given_rows_in joining rows.entry (both_lent_in forward.old backward.old reverse.old workspace.old))
        source target forward_settings backward_settings
        (outcome_of result (both_lent_in forward.new backward.new reverse.new workspace.new)) }
{
    reversed::reverse(rows, reverse, workspace.nodes);
    let inward = reversed::backward_graph(rows, reverse);
    let outward = reversed::forward_graph(rows, reverse);
    let uses = methods::choose(adaptive, source, target, inward.degrees, inward.out_degrees);
    let sources = [source];
    let targets = [target];
    calls::solve_settled(
        forward_settings,
        None,
        methods::list_if_used(&sources, uses.forward),
        outward,
        forward,
        workspace,
    );
    calls::solve_settled(
        backward_settings,
        None,
        methods::list_if_used(&targets, uses.backward),
        inward,
        backward,
        workspace,
    );
    reversed::clear(reverse);
    methods::score(
        uses,
        backward_settings.alpha,
        source,
        target,
        lent::read(backward),
        lent::read(forward),
    )
}
