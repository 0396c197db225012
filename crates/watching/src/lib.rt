// The node that a solve may watch: whether it is one of the nodes, and the early stop by it.
#![tactic(auto)]

ghost use Rattle.std.specs.Prelude.{◌≡◌, length};
ghost use Rattle.rules.specs.Rules.{watched, watchable};
ghost use Rattle.watching.specs.Watching.{watch_in, Stops};

// The node that a solve watches, and to which precision. A solve that watches none has None.
#[derive(Clone, Copy)]
pub struct Watched {
    pub node: u32,
    pub precision: f64,
}

// Whether the watched node, if any, is one of n nodes.
#[tactic(auto, unfolding(crate::specs::Watching::watch_in, rules::specs::Rules::watchable))]
pub fn is_watchable(watch: Option<Watched>, n: usize) -> bool
    ensures { result ≡ watchable n (watch_in watch) }
{
    watch.is_none_or(|w| (w.node as usize) < n)
}

// Whether the estimate of the watched node is above the precision, and its residual below a tenth
// of it: never, where the node is out of range.
fn is_enough(w: Watched, estimate: &[f64], residual: &[f64]) -> bool
    requires { length residual.now ≡ length estimate.now }
    ensures { Stops (watched w.node w.precision) estimate.now residual.now result }
{
    let at = w.node as usize;
    at < estimate.len() && (w.precision < estimate[at]) & (residual[at] < w.precision * 0.1)
}

// The early stop.
#[tactic(auto, unfolding(crate::specs::Watching::watch_in, rules::specs::Rules::stops))]
pub fn stopped(watch: Option<Watched>, estimate: &[f64], residual: &[f64]) -> bool
    requires { length residual.now ≡ length estimate.now }
    ensures { Stops (watch_in watch) estimate.now residual.now result }
{
    watch.is_some_and(|w| is_enough(w, estimate, residual))
}
