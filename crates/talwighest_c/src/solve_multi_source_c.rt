// A forward solve from many sources, for C. Each function calls
// the library's of the same name, and promises what that does.
ghost use Rattle.refusals.specs.Calls.{outcome_of};
ghost use Rattle.calls.specs.Lent.{solve_lent, links_lent, solving};
ghost use Rattle.calls.specs.Outcomes.{given_links, given_rows};
ghost use Rattle.forward_push.specs.Outcomes.{solve_multi_source};

use calls::Solved;
use calls::lent::{Links, RowBuffers, Rows, Vectors, Workspace};
use refusals::Settings;

#[unsafe(no_mangle)]
pub extern "C" fn solve_multi_source_links(
    n: u32,
    from: &[u32],
    to: &[u32],
    weight: &[f64],
    sources: &[u32],
    settings: Settings,
    estimate: &mut [f64],
    residual: &mut [f64],
    starts: &mut [u32],
    columns: &mut [u32],
    weights: &mut [f64],
    degrees: &mut [f64],
    priorities: &mut [f64],
    nodes: &mut [u32],
    queued: &mut [u64],
    visited: &mut [u64],
) -> Solved
    ensures { solve_multi_source (given_links solving n from.now to.now weight.now (links_lent starts.old columns.old weights.old
        (solve_lent estimate.old residual.old degrees.old priorities.old nodes.old queued.old visited.old)))
        sources.now settings (outcome_of result (links_lent starts.new columns.new weights.new
        (solve_lent estimate.new residual.new degrees.new priorities.new nodes.new queued.new visited.new))) }
{
    let links = Links {
        nodes: n,
        from,
        to,
        weight,
    };
    let mut vectors = Vectors { estimate, residual };
    let mut made = RowBuffers {
        starts,
        columns,
        weights,
    };
    let mut workspace = Workspace {
        priorities,
        nodes,
        queued,
        visited,
    };
    Solved::from(solve_multi_source::links::solve_multi_source_links(
        links,
        sources,
        settings,
        &mut vectors,
        &mut made,
        degrees,
        &mut workspace,
    ))
}

#[unsafe(no_mangle)]
pub extern "C" fn solve_multi_source_rows<'a>(
    n: u32,
    starts: &[u32],
    columns: &'a [u32],
    weights: &'a [f64],
    sources: &[u32],
    settings: Settings,
    estimate: &mut [f64],
    residual: &mut [f64],
    degrees: &mut [f64],
    priorities: &mut [f64],
    nodes: &mut [u32],
    queued: &mut [u64],
    visited: &mut [u64],
) -> Solved
    ensures { solve_multi_source (given_rows solving n starts.now columns.now weights.now
        (solve_lent estimate.old residual.old degrees.old priorities.old nodes.old queued.old visited.old))
        sources.now settings (outcome_of result (solve_lent estimate.new residual.new degrees.new priorities.new nodes.new queued.new visited.new)) }
{
    let rows = Rows {
        nodes: n,
        starts,
        columns,
        weights,
    };
    let mut vectors = Vectors { estimate, residual };
    let mut workspace = Workspace {
        priorities,
        nodes,
        queued,
        visited,
    };
    Solved::from(solve_multi_source::rows::solve_multi_source_rows(
        rows,
        sources,
        settings,
        &mut vectors,
        degrees,
        &mut workspace,
    ))
}
