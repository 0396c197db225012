// The solution that a solve lets expect, for C. Each function calls
// the library's of the same name, and promises what that does.
ghost use Rattle.std.specs.Prelude.{◌≡◌};
ghost use Rattle.refusals.specs.Calls.{outcome_of};
ghost use Rattle.forward_push.specs.Outcomes.{extrapolating};

use crate::number::number_for;
use calls::lent::SharedVectors;

#[unsafe(no_mangle)]
pub extern "C" fn extrapolated_solution(
    estimate: &[f64],
    residual: &[f64],
    alpha: f64,
    solution: &mut [f64],
) -> u32
    ensures { outcome_of result solution.new ≡ extrapolating estimate.now residual.now alpha solution.old }
{
    let found = SharedVectors { estimate, residual };
    number_for(forward_push::extrapolation::extrapolated_solution(found, alpha, solution))
}
