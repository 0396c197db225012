// A forward solve of lent rows that passed every test, which leaves the workspace cleared.
ghost use Rattle.refusals.specs.Calls.{outcome_of};
ghost use Rattle.refusals.specs.Refusals.{Sound};
ghost use Rattle.graph.specs.Store.{Rowed};
ghost use Rattle.rules.specs.Ways.{push_forward};
ghost use Rattle.watching.specs.Watching.{watch_in};
ghost use Rattle.calls.specs.Lent.{solving, done_counts};
ghost use Rattle.calls.specs.Slices.{lent_in, given_rows_in, SameVectors, SameWorkspace};
ghost use Rattle.calls.specs.Promises.{Fits, Settles};

use calls::Counts;
use calls::lent::{Rows, Vectors, Workspace};
use pushes::Graph;
use refusals::Settings;
use watching::Watched;

// A forward solve of rows.
pub fn solve_rows(
    rows: Rows<'_>,
    sources: &[u32],
    watch: Option<Watched>,
    settings: Settings,
    vectors: &mut Vectors<'_>,
    degrees: &mut [f64],
    workspace: &mut Workspace<'_>,
) -> Counts
    requires { Rowed rows.nodes rows.starts.now rows.columns.now rows.weights.now
        × Fits rows.nodes sources.now (lent_in vectors.old degrees.old workspace.old) × Sound settings }
    ensures same_vectors { SameVectors vectors.old vectors.new }
    ensures same_workspace { SameWorkspace workspace.old workspace.new }
    ensures settles { Settles push_forward (given_rows_in solving rows.entry (lent_in vectors.old degrees.old workspace.old))
        settings (watch_in watch) sources.now (outcome_of (done_counts result) (lent_in vectors.new degrees.new workspace.new)) }
{
    graph::sum_rows(rows.starts, rows.weights, degrees);
    let graph = Graph {
        backward: false,
        starts: rows.starts,
        columns: rows.columns,
        reverse_columns: rows.columns,
        weights: rows.weights,
        reverse_weights: rows.weights,
        degrees,
        out_degrees: degrees,
    };
    let counts = calls::solve_settled(settings, watch, sources, graph, vectors, workspace);
    degrees.fill(0.0);
    counts
}
