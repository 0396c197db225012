// The score by the solves that the degrees speak for, for C. Each function calls
// the library's of the same name, and promises what that does.
ghost use Rattle.std.specs.Prelude.{◌≡◌};
ghost use Rattle.refusals.specs.Calls.{outcome_of};
ghost use Rattle.calls.specs.Lent.{solve_lent, links_lent};
ghost use Rattle.calls.specs.Outcomes.{given_links, given_rows};
ghost use Rattle.backward_push.specs.Lent.{back_lent};
ghost use Rattle.bidirectional_push.specs.Lent.{both_lent, joining};
ghost use Rattle.bidirectional_push.specs.Outcomes.{adaptive_solve};

use backward_push::reversed::ReverseBuffers;
use calls::Scored;
use calls::lent::{Links, RowBuffers, Rows, Vectors, Workspace};
use refusals::Settings;

#[unsafe(no_mangle)]
pub extern "C" fn adaptive_solve_links(
    n: u32,
    from: &[u32],
    to: &[u32],
    weight: &[f64],
    source: u32,
    target: u32,
    forward_settings: Settings,
    backward_settings: Settings,
    forward_estimate: &mut [f64],
    forward_residual: &mut [f64],
    backward_estimate: &mut [f64],
    backward_residual: &mut [f64],
    starts: &mut [u32],
    columns: &mut [u32],
    weights: &mut [f64],
    reverse_starts: &mut [u32],
    reverse_columns: &mut [u32],
    reverse_weights: &mut [f64],
    in_degrees: &mut [f64],
    out_degrees: &mut [f64],
    priorities: &mut [f64],
    nodes: &mut [u32],
    queued: &mut [u64],
    visited: &mut [u64],
) -> Scored
    ensures { outcome_of result (links_lent starts.new columns.new weights.new (both_lent forward_estimate.new forward_residual.new (back_lent reverse_starts.new reverse_columns.new reverse_weights.new out_degrees.new
        (solve_lent backward_estimate.new backward_residual.new in_degrees.new priorities.new nodes.new queued.new visited.new))))
        ≡ adaptive_solve (given_links joining n from.now to.now weight.now
        (links_lent starts.old columns.old weights.old (both_lent forward_estimate.old forward_residual.old (back_lent reverse_starts.old reverse_columns.old reverse_weights.old out_degrees.old
        (solve_lent backward_estimate.old backward_residual.old in_degrees.old priorities.old nodes.old queued.old visited.old)))))
        source target forward_settings backward_settings }
{
    let links = Links {
        nodes: n,
        from,
        to,
        weight,
    };
    let mut forward = Vectors {
        estimate: forward_estimate,
        residual: forward_residual,
    };
    let mut backward = Vectors {
        estimate: backward_estimate,
        residual: backward_residual,
    };
    let mut made = RowBuffers {
        starts,
        columns,
        weights,
    };
    let mut reverse = ReverseBuffers {
        starts: reverse_starts,
        columns: reverse_columns,
        weights: reverse_weights,
        in_degrees,
        out_degrees,
    };
    let mut workspace = Workspace {
        priorities,
        nodes,
        queued,
        visited,
    };
    Scored::from(adaptive_solve::links::adaptive_solve_links(
        links,
        source,
        target,
        forward_settings,
        backward_settings,
        &mut forward,
        &mut backward,
        &mut made,
        &mut reverse,
        &mut workspace,
    ))
}

#[unsafe(no_mangle)]
pub extern "C" fn adaptive_solve_rows<'a>(
    n: u32,
    starts: &[u32],
    columns: &'a [u32],
    weights: &'a [f64],
    source: u32,
    target: u32,
    forward_settings: Settings,
    backward_settings: Settings,
    forward_estimate: &mut [f64],
    forward_residual: &mut [f64],
    backward_estimate: &mut [f64],
    backward_residual: &mut [f64],
    reverse_starts: &mut [u32],
    reverse_columns: &mut [u32],
    reverse_weights: &mut [f64],
    in_degrees: &mut [f64],
    out_degrees: &mut [f64],
    priorities: &mut [f64],
    nodes: &mut [u32],
    queued: &mut [u64],
    visited: &mut [u64],
) -> Scored
    ensures { outcome_of result (both_lent forward_estimate.new forward_residual.new (back_lent reverse_starts.new reverse_columns.new reverse_weights.new out_degrees.new
        (solve_lent backward_estimate.new backward_residual.new in_degrees.new priorities.new nodes.new queued.new visited.new)))
        ≡ adaptive_solve (given_rows joining n starts.now columns.now weights.now
        (both_lent forward_estimate.old forward_residual.old (back_lent reverse_starts.old reverse_columns.old reverse_weights.old out_degrees.old
        (solve_lent backward_estimate.old backward_residual.old in_degrees.old priorities.old nodes.old queued.old visited.old))))
        source target forward_settings backward_settings }
{
    let rows = Rows {
        nodes: n,
        starts,
        columns,
        weights,
    };
    let mut forward = Vectors {
        estimate: forward_estimate,
        residual: forward_residual,
    };
    let mut backward = Vectors {
        estimate: backward_estimate,
        residual: backward_residual,
    };
    let mut reverse = ReverseBuffers {
        starts: reverse_starts,
        columns: reverse_columns,
        weights: reverse_weights,
        in_degrees,
        out_degrees,
    };
    let mut workspace = Workspace {
        priorities,
        nodes,
        queued,
        visited,
    };
    Scored::from(adaptive_solve::rows::adaptive_solve_rows(
        rows,
        source,
        target,
        forward_settings,
        backward_settings,
        &mut forward,
        &mut backward,
        &mut reverse,
        &mut workspace,
    ))
}
