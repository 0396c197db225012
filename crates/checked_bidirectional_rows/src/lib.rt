// What a bidirectional or adaptive call with rows does: refused for the first reason that applies, or solved.
#![tactic(auto)]

ghost use Rattle.refusals.specs.Calls.{outcome_of};
ghost use Rattle.calls.specs.Lent.{scored_for};
ghost use Rattle.calls.specs.Slices.{given_rows_in, SameVectors, SameWorkspace};
ghost use Rattle.backward_push.specs.Slices.{SameReverseBuffers};
ghost use Rattle.bidirectional_push.specs.Lent.{both_lent_in, joining};
ghost use Rattle.bidirectional_push.specs.Promises.{ChecksBoth};

use backward_push::reversed::ReverseBuffers;
use calls::lent::{Rows, Vectors, Workspace};
use refusals::Settings;
use refusals::refusal::Refusal;

// A bidirectional or adaptive call with rows: refused for the first reason that applies, or solved.
pub fn checked_rows(
    rows: Rows<'_>,
    source: u32,
    target: u32,
    adaptive: bool,
    forward_settings: Settings,
    backward_settings: Settings,
    forward: &mut Vectors<'_>,
    backward: &mut Vectors<'_>,
    reverse: &mut ReverseBuffers<'_>,
    workspace: &mut Workspace<'_>,
) -> Result<f64, Refusal>
    ensures same_forward { SameVectors forward.old forward.new }
    ensures same_backward { SameVectors backward.old backward.new }
    ensures same_reverse { SameReverseBuffers reverse.old reverse.new }
    ensures same_workspace { SameWorkspace workspace.old workspace.new }
    ensures checks { ChecksBoth adaptive (given_rows_in joining rows.entry (both_lent_in forward.old backward.old reverse.old workspace.old))
        source target forward_settings backward_settings
        (outcome_of (scored_for result) (both_lent_in forward.new backward.new reverse.new workspace.new)) }
{
    let k = rows.nodes as usize;
    let differ = (forward.estimate.len() != k) | (forward.residual.len() != k);
    checked_backward_rows::check_rows(differ, rows, 0, backward, reverse, workspace)?;
    refusals::check_settings(forward_settings)?;
    refusals::check_settings(backward_settings)?;
    Ok(bidirectional_push::rows::solve_rows(
        rows,
        source,
        target,
        adaptive,
        forward_settings,
        backward_settings,
        forward,
        backward,
        reverse,
        workspace,
    ))
}
