// A backward solve of lent rows that passed every test, which leaves the workspace cleared.
ghost use Rattle.std.specs.Prelude.{◌≡◌, length};
ghost use Rattle.refusals.specs.Calls.{outcome_of};
ghost use Rattle.refusals.specs.Refusals.{Sound};
ghost use Rattle.graph.specs.Store.{RowBuffers};
ghost use Rattle.rules.specs.Ways.{push_backward};
ghost use Rattle.watching.specs.Watching.{watch_in};
ghost use Rattle.calls.specs.Lent.{done_counts};
ghost use Rattle.calls.specs.Slices.{lent_in, given_rows_in, SameVectors, SameWorkspace};
ghost use Rattle.calls.specs.Promises.{Fits, Settles};
ghost use Rattle.backward_push.specs.Lent.{reversing};
ghost use Rattle.backward_push.specs.Slices.{back_lent_in, SameReverseBuffers};

use crate::reversed;
use crate::reversed::ReverseBuffers;
use calls::Counts;
use calls::lent::{Rows, Vectors, Workspace};
use refusals::Settings;
use watching::Watched;

// A backward solve of rows. The queue's nodes serve as positions while the rows are reversed.
pub fn solve_rows(
    rows: Rows<'_>,
    targets: &[u32],
    watch: Option<Watched>,
    settings: Settings,
    vectors: &mut Vectors<'_>,
    reverse: &mut ReverseBuffers<'_>,
    workspace: &mut Workspace<'_>,
) -> Counts
    requires { RowBuffers rows.nodes rows.starts.now rows.columns.now rows.weights.now reverse.old.starts.now reverse.old.columns.now reverse.old.weights.now workspace.old.nodes.now
        × (length reverse.old.out_degrees.now ≡ rows.nodes)
        × Fits rows.nodes targets.now (lent_in vectors.old reverse.old.in_degrees.now workspace.old) × Sound settings }
    ensures same_vectors { SameVectors vectors.old vectors.new }
    ensures same_reverse { SameReverseBuffers reverse.old reverse.new }
    ensures same_workspace { SameWorkspace workspace.old workspace.new }
    ensures settles { Settles push_backward (given_rows_in reversing rows.entry (back_lent_in reverse.old vectors.old workspace.old))
        settings (watch_in watch) targets.now (outcome_of (done_counts result) (back_lent_in reverse.new vectors.new workspace.new)) }
{
    reversed::reverse(rows, reverse, workspace.nodes);
    let graph = reversed::backward_graph(rows, reverse);
    let counts = calls::solve_settled(settings, watch, targets, graph, vectors, workspace);
    reversed::clear(reverse);
    counts
}
