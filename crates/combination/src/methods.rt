// Which solves a bidirectional or adaptive call uses, and the score that they give.
ghost use Rattle.std.specs.Prelude.{◌≡◌, [], length};
ghost use Rattle.numbers.specs.Choice.{if◌then◌otherwise◌};
ghost use Rattle.rules.specs.Rules.{at};
ghost use Rattle.rules.specs.Answers.{method_among};
ghost use Rattle.combination.specs.Methods.{method_for, Follows, score_by};

use crate::{Uses, combine};
use calls::lent::SharedVectors;

// Both solves or, in adaptive mode, those that the degrees of source and target speak for. The mode is a flag, since
// `method_for`, which the promise cites, takes one.
pub fn choose(
    adaptive: bool,
    source: u32,
    target: u32,
    in_degrees: &[f64],
    out_degrees: &[f64],
) -> Uses
    requires { length out_degrees.now ≡ length in_degrees.now }
    ensures { Follows result (method_for adaptive (method_among (length in_degrees.now) (at out_degrees.now) (at in_degrees.now) source target)) }
{
    let s = source as usize;
    let t = target as usize;
    let n = in_degrees.len();
    if adaptive {
        if (s < n) & (t < n) {
            let outward = out_degrees[s];
            let inward = in_degrees[t];
            let backward_alone = inward * 2.0 < outward;
            let forward_alone = outward * 2.0 < inward;
            return Uses {
                forward: !backward_alone,
                backward: backward_alone | !forward_alone,
            };
        }
        return Uses {
            forward: false,
            backward: false,
        };
    }
    Uses {
        forward: true,
        backward: true,
    }
}

// The list that a solve starts from where it is used, and an empty one where it is not.
pub fn list_if_used(list: &[u32], used: bool) -> &[u32]
    ensures { result.now ≡ (if used then list.now otherwise []) }
{
    if used {
        return list;
    }
    &list[..0]
}

// The score, by which solves are used; alpha is the backward one.
pub fn score(
    uses: Uses,
    alpha: f64,
    source: u32,
    target: u32,
    backward: SharedVectors<'_>,
    forward: SharedVectors<'_>,
) -> f64
    requires { (length backward.residual.now ≡ length backward.estimate.now) × (length forward.estimate.now ≡ length backward.estimate.now)
        × (length forward.residual.now ≡ length backward.estimate.now) }
    ensures { result ≡ score_by uses alpha source target backward.entry.estimate.now backward.entry.residual.now forward.entry.estimate.now
        forward.entry.residual.now }
{
    if uses.forward {
        if uses.backward {
            return combine(backward, forward, alpha);
        }
        return calls::score_at(forward.estimate, target);
    }
    if uses.backward {
        return calls::score_at(backward.estimate, source);
    }
    0.0
}
