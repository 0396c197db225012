// The score by whichever solve the degrees of source and target speak for, or by both, of rows.
ghost use Rattle.std.specs.Prelude.{◌≡◌};
ghost use Rattle.refusals.specs.Calls.{outcome_of};
ghost use Rattle.calls.specs.Lent.{scored_for};
ghost use Rattle.calls.specs.Slices.{given_rows_in, SameVectors, SameWorkspace};
ghost use Rattle.backward_push.specs.Slices.{SameReverseBuffers};
ghost use Rattle.bidirectional_push.specs.Lent.{both_lent_in, joining};
ghost use Rattle.bidirectional_push.specs.Outcomes.{adaptive_solve};

use backward_push::reversed::ReverseBuffers;
use calls::lent::{Rows, Vectors, Workspace};
use refusals::Settings;
use refusals::refusal::Refusal;

pub fn adaptive_solve_rows(
    rows: Rows<'_>,
    source: u32,
    target: u32,
    forward_settings: Settings,
    backward_settings: Settings,
    forward: &mut Vectors<'_>,
    backward: &mut Vectors<'_>,
    reverse: &mut ReverseBuffers<'_>,
    workspace: &mut Workspace<'_>,
) -> Result<f64, Refusal>
    ensures same_forward { SameVectors forward.old forward.new }
    ensures same_backward { SameVectors backward.old backward.new }
    ensures same_reverse { SameReverseBuffers reverse.old reverse.new }
    ensures same_workspace { SameWorkspace workspace.old workspace.new }
    ensures outcome { outcome_of (scored_for result) (both_lent_in forward.new backward.new reverse.new workspace.new)
        ≡ adaptive_solve (given_rows_in joining rows.entry (both_lent_in forward.old backward.old reverse.old workspace.old))
        source target forward_settings backward_settings }
{
    checked_bidirectional_rows::checked_rows(
        rows,
        source,
        target,
        true,
        forward_settings,
        backward_settings,
        forward,
        backward,
        reverse,
        workspace,
    )
}
