// A forward and a backward solve combined: a public call, and what the bidirectional calls share with it.
#![tactic(auto)]

pub mod methods;

ghost use Rattle.std.specs.Prelude.{◌≡◌, length};
ghost use Rattle.rules.specs.Answers.{combined};
ghost use Rattle.calls.specs.Lent.{scored_for};
ghost use Rattle.combination.specs.Outcomes.{combining};

use calls::lent::SharedVectors;
use refusals::refusal::Refusal;

// Which solves are used: two flags, since `score_by` and `Follows`, which the promises cite, take these.
#[derive(Clone, Copy)]
pub struct Uses {
    pub forward: bool,
    pub backward: bool,
}

// From +0, per node in order: the product of the estimates, and then each residual times the other's estimate times
// alpha, the backward residual first.
pub fn combine(backward: SharedVectors<'_>, forward: SharedVectors<'_>, alpha: f64) -> f64
    requires { (length backward.residual.now ≡ length backward.estimate.now) × (length forward.estimate.now ≡ length backward.estimate.now)
        × (length forward.residual.now ≡ length backward.estimate.now) }
    ensures { result ≡ combined alpha backward.entry.estimate.now backward.entry.residual.now forward.entry.estimate.now forward.entry.residual.now
        (length backward.entry.estimate.now) }
{
    let mut total: f64 = 0.0;
    for v in 0..backward.estimate.len() {
        total = total
            + backward.estimate[v] * forward.estimate[v]
            + backward.residual[v] * forward.estimate[v] * alpha
            + backward.estimate[v] * forward.residual[v] * alpha;
    }
    total
}

// Combines the vectors of a backward and of a forward solve; alpha is the backward one.
pub fn combine_with_forward(
    backward: SharedVectors<'_>,
    forward: SharedVectors<'_>,
    alpha: f64,
) -> Result<f64, Refusal>
    ensures { scored_for result ≡ combining backward.entry.estimate.now backward.entry.residual.now forward.entry.estimate.now forward.entry.residual.now alpha }
{
    let n = backward.estimate.len();
    let differ = (backward.residual.len() != n)
        | (forward.estimate.len() != n)
        | (forward.residual.len() != n);
    refusals::check_sizes(n, 0, 0, differ)?;
    refusals::check_alpha(alpha)?;
    Ok(combine(backward, forward, alpha))
}
