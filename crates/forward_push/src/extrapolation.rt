// The solution that the estimate and the residual of a solve, forward or backward, let expect: a public call.
ghost use Rattle.std.specs.Prelude.{◌≡◌};
ghost use Rattle.refusals.specs.Answered.{number_in};
ghost use Rattle.refusals.specs.Calls.{outcome_of};
ghost use Rattle.forward_push.specs.Outcomes.{extrapolating};

use calls::lent::SharedVectors;
use refusals::refusal::Refusal;

// Estimate + alpha × residual, refused for too many nodes, a wrong length or alpha.
pub fn extrapolated_solution(
    found: SharedVectors<'_>,
    alpha: f64,
    solution: &mut [f64],
) -> Result<(), Refusal>
    ensures { outcome_of (number_in result) solution.new ≡ extrapolating found.entry.estimate.now found.entry.residual.now alpha solution.old }
{
    let n = found.estimate.len();
    let differ = (found.residual.len() != n) | (solution.len() != n);
    refusals::check_sizes(n, 0, 0, differ)?;
    refusals::check_alpha(alpha)?;
    calls::extrapolate(found, alpha, solution);
    Ok(())
}
