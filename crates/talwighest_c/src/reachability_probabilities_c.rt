// How likely each node is to reach a target, for C. Each function calls
// the library's of the same name, and promises what that does.
ghost use Rattle.std.specs.Prelude.{◌≡◌};
ghost use Rattle.refusals.specs.Calls.{outcome_of};
ghost use Rattle.calls.specs.Lent.{solve_lent, links_lent};
ghost use Rattle.calls.specs.Outcomes.{given_links, given_rows};
ghost use Rattle.backward_push.specs.Lent.{back_lent, reach_lent, reaching};
ghost use Rattle.backward_push.specs.Outcomes.{reachability_probabilities};

use crate::number::number_for;
use backward_push::reversed::ReverseBuffers;
use calls::lent::{Links, RowBuffers, Rows, Vectors, Workspace};
use refusals::Settings;

#[unsafe(no_mangle)]
pub extern "C" fn reachability_probabilities_links(
    n: u32,
    from: &[u32],
    to: &[u32],
    weight: &[f64],
    target: u32,
    settings: Settings,
    estimate: &mut [f64],
    residual: &mut [f64],
    solution: &mut [f64],
    starts: &mut [u32],
    columns: &mut [u32],
    weights: &mut [f64],
    reverse_starts: &mut [u32],
    reverse_columns: &mut [u32],
    reverse_weights: &mut [f64],
    in_degrees: &mut [f64],
    out_degrees: &mut [f64],
    priorities: &mut [f64],
    nodes: &mut [u32],
    queued: &mut [u64],
    visited: &mut [u64],
) -> u32
    ensures { outcome_of result (links_lent starts.new columns.new weights.new (reach_lent solution.new (back_lent reverse_starts.new reverse_columns.new reverse_weights.new out_degrees.new
        (solve_lent estimate.new residual.new in_degrees.new priorities.new nodes.new queued.new visited.new))))
        ≡ reachability_probabilities (given_links reaching n from.now to.now weight.now
        (links_lent starts.old columns.old weights.old (reach_lent solution.old (back_lent reverse_starts.old reverse_columns.old reverse_weights.old out_degrees.old
        (solve_lent estimate.old residual.old in_degrees.old priorities.old nodes.old queued.old visited.old)))))
        target settings }
{
    let links = Links {
        nodes: n,
        from,
        to,
        weight,
    };
    let mut vectors = Vectors { estimate, residual };
    let mut made = RowBuffers {
        starts,
        columns,
        weights,
    };
    let mut reverse = ReverseBuffers {
        starts: reverse_starts,
        columns: reverse_columns,
        weights: reverse_weights,
        in_degrees,
        out_degrees,
    };
    let mut workspace = Workspace {
        priorities,
        nodes,
        queued,
        visited,
    };
    number_for(
        reachability_probabilities::links::reachability_probabilities_links(
            links,
            target,
            settings,
            &mut vectors,
            solution,
            &mut made,
            &mut reverse,
            &mut workspace,
        ),
    )
}

#[unsafe(no_mangle)]
pub extern "C" fn reachability_probabilities_rows<'a>(
    n: u32,
    starts: &[u32],
    columns: &'a [u32],
    weights: &'a [f64],
    target: u32,
    settings: Settings,
    estimate: &mut [f64],
    residual: &mut [f64],
    solution: &mut [f64],
    reverse_starts: &mut [u32],
    reverse_columns: &mut [u32],
    reverse_weights: &mut [f64],
    in_degrees: &mut [f64],
    out_degrees: &mut [f64],
    priorities: &mut [f64],
    nodes: &mut [u32],
    queued: &mut [u64],
    visited: &mut [u64],
) -> u32
    ensures { outcome_of result (reach_lent solution.new (back_lent reverse_starts.new reverse_columns.new reverse_weights.new out_degrees.new
        (solve_lent estimate.new residual.new in_degrees.new priorities.new nodes.new queued.new visited.new)))
        ≡ reachability_probabilities (given_rows reaching n starts.now columns.now weights.now
        (reach_lent solution.old (back_lent reverse_starts.old reverse_columns.old reverse_weights.old out_degrees.old
        (solve_lent estimate.old residual.old in_degrees.old priorities.old nodes.old queued.old visited.old))))
        target settings }
{
    let rows = Rows {
        nodes: n,
        starts,
        columns,
        weights,
    };
    let mut vectors = Vectors { estimate, residual };
    let mut reverse = ReverseBuffers {
        starts: reverse_starts,
        columns: reverse_columns,
        weights: reverse_weights,
        in_degrees,
        out_degrees,
    };
    let mut workspace = Workspace {
        priorities,
        nodes,
        queued,
        visited,
    };
    number_for(
        reachability_probabilities::rows::reachability_probabilities_rows(
            rows,
            target,
            settings,
            &mut vectors,
            solution,
            &mut reverse,
            &mut workspace,
        ),
    )
}
