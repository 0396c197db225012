// A backward solve that stops early for its source, for C. Each function calls
// the library's of the same name, and promises what that does.
ghost use Rattle.refusals.specs.Calls.{outcome_of};
ghost use Rattle.calls.specs.Lent.{solve_lent, links_lent};
ghost use Rattle.calls.specs.Outcomes.{given_links, given_rows};
ghost use Rattle.backward_push.specs.Lent.{back_lent, reversing};
ghost use Rattle.backward_push.specs.Outcomes.{solve_with_source};

use backward_push::reversed::ReverseBuffers;
use calls::Solved;
use calls::lent::{Links, RowBuffers, Rows, Vectors, Workspace};
use refusals::Settings;

#[unsafe(no_mangle)]
pub extern "C" fn solve_with_source_links(
    n: u32,
    from: &[u32],
    to: &[u32],
    weight: &[f64],
    source: u32,
    target: u32,
    source_precision: f64,
    settings: Settings,
    estimate: &mut [f64],
    residual: &mut [f64],
    starts: &mut [u32],
    columns: &mut [u32],
    weights: &mut [f64],
    reverse_starts: &mut [u32],
    reverse_columns: &mut [u32],
    reverse_weights: &mut [f64],
    in_degrees: &mut [f64],
    out_degrees: &mut [f64],
    priorities: &mut [f64],
    nodes: &mut [u32],
    queued: &mut [u64],
    visited: &mut [u64],
) -> Solved
    ensures { solve_with_source (given_links reversing n from.now to.now weight.now
        (links_lent starts.old columns.old weights.old (back_lent reverse_starts.old reverse_columns.old reverse_weights.old out_degrees.old
        (solve_lent estimate.old residual.old in_degrees.old priorities.old nodes.old queued.old visited.old))))
        source target source_precision settings (outcome_of result (links_lent starts.new columns.new weights.new (back_lent reverse_starts.new reverse_columns.new reverse_weights.new out_degrees.new
        (solve_lent estimate.new residual.new in_degrees.new priorities.new nodes.new queued.new visited.new)))) }
{
    let links = Links {
        nodes: n,
        from,
        to,
        weight,
    };
    let mut vectors = Vectors { estimate, residual };
    let mut made = RowBuffers {
        starts,
        columns,
        weights,
    };
    let mut reverse = ReverseBuffers {
        starts: reverse_starts,
        columns: reverse_columns,
        weights: reverse_weights,
        in_degrees,
        out_degrees,
    };
    let mut workspace = Workspace {
        priorities,
        nodes,
        queued,
        visited,
    };
    Solved::from(solve_with_source::links::solve_with_source_links(
        links,
        source,
        target,
        source_precision,
        settings,
        &mut vectors,
        &mut made,
        &mut reverse,
        &mut workspace,
    ))
}

#[unsafe(no_mangle)]
pub extern "C" fn solve_with_source_rows<'a>(
    n: u32,
    starts: &[u32],
    columns: &'a [u32],
    weights: &'a [f64],
    source: u32,
    target: u32,
    source_precision: f64,
    settings: Settings,
    estimate: &mut [f64],
    residual: &mut [f64],
    reverse_starts: &mut [u32],
    reverse_columns: &mut [u32],
    reverse_weights: &mut [f64],
    in_degrees: &mut [f64],
    out_degrees: &mut [f64],
    priorities: &mut [f64],
    nodes: &mut [u32],
    queued: &mut [u64],
    visited: &mut [u64],
) -> Solved
    ensures { solve_with_source (given_rows reversing n starts.now columns.now weights.now
        (back_lent reverse_starts.old reverse_columns.old reverse_weights.old out_degrees.old
        (solve_lent estimate.old residual.old in_degrees.old priorities.old nodes.old queued.old visited.old)))
        source target source_precision settings (outcome_of result (back_lent reverse_starts.new reverse_columns.new reverse_weights.new out_degrees.new
        (solve_lent estimate.new residual.new in_degrees.new priorities.new nodes.new queued.new visited.new))) }
{
    let rows = Rows {
        nodes: n,
        starts,
        columns,
        weights,
    };
    let mut vectors = Vectors { estimate, residual };
    let mut reverse = ReverseBuffers {
        starts: reverse_starts,
        columns: reverse_columns,
        weights: reverse_weights,
        in_degrees,
        out_degrees,
    };
    let mut workspace = Workspace {
        priorities,
        nodes,
        queued,
        visited,
    };
    Solved::from(solve_with_source::rows::solve_with_source_rows(
        rows,
        source,
        target,
        source_precision,
        settings,
        &mut vectors,
        &mut reverse,
        &mut workspace,
    ))
}
