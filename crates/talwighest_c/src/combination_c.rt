// A forward and a backward solve combined, for C. Each function calls
// the library's of the same name, and promises what that does.
ghost use Rattle.std.specs.Prelude.{◌≡◌};
ghost use Rattle.combination.specs.Outcomes.{combining};

use calls::Scored;
use calls::lent::SharedVectors;

#[unsafe(no_mangle)]
pub extern "C" fn combine_with_forward(
    backward_estimate: &[f64],
    backward_residual: &[f64],
    forward_estimate: &[f64],
    forward_residual: &[f64],
    alpha: f64,
) -> Scored
    ensures { result ≡ combining backward_estimate.now backward_residual.now forward_estimate.now forward_residual.now alpha }
{
    let backward = SharedVectors {
        estimate: backward_estimate,
        residual: backward_residual,
    };
    let forward = SharedVectors {
        estimate: forward_estimate,
        residual: forward_residual,
    };
    Scored::from(combination::combine_with_forward(backward, forward, alpha))
}
