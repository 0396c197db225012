// The start of a solve, which both directions share, over lent buffers: nothing anywhere, and then each source gets its part and
// is offered. A promise says that the state that the buffers stand for is the rules'.
#![tactic(auto)]

ghost use Rattle.std.specs.Prelude.{[], ◌∷◌, ◌≤◌, length};
ghost use Rattle.rules.specs.Rules.{inside, each, gain, offer};
ghost use Rattle.rules.specs.Rules as Rules;
ghost use Rattle.watching.specs.Watching.{watch_in};
ghost use Rattle.pushes.specs.States.{pending_in, holding_in, SameFrontier, SameTally};
ghost use Rattle.pushes.specs.Buffers.{Lent, RoomIn};
ghost use Rattle.pushes.specs.Meant.{Every, Weighing};
ghost use Rattle.pushes.specs.Promises.{Moved};
ghost use Rattle.starting.specs.Promises.{Gained, LeavesState};

use pushes::{Frontier, Tally};
use refusals::Settings;
use watching::Watched;

// A source gets x, if it is a node.
fn gain_one(x: f64, v: u32, residual: &mut [f64])
    ensures { Gained (each (gain x) (inside (length residual.old) (v ∷ []))) residual.old residual.new }
{
    let at = v as usize;
    if at < residual.len() {
        residual[at] = residual[at] + x;
    }
}

// Each source that is a node gets x.
fn gain_all(x: f64, sources: &[u32], residual: &mut [f64])
    ensures { Gained (each (gain x) (inside (length residual.old) sources.now)) residual.old residual.new }
{
    for &v in sources {
        gain_one(x, v, residual);
    }
}

// A source is offered, if it is a node.
fn offer_one(v: u32, degrees: &[f64], frontier: &mut Frontier<'_>)
    requires { Lent (length degrees.now) (pending_in frontier.old) }
    ensures same_frontier { SameFrontier frontier.old frontier.new }
    ensures moved { Moved (Weighing degrees.now) (λ way. each (offer way) (inside (length degrees.now) (v ∷ []))) (length degrees.now)
        (pending_in frontier.old) (pending_in frontier.new) }
{
    let at = v as usize;
    if at < degrees.len() {
        // Lent anew first: if the field itself were lent to be read, the proof would know only its length afterwards.
        let residual = &mut *frontier.residual;
        frontier.queue = pushes::offer_node(
            frontier.queue,
            v,
            degrees,
            residual,
            frontier.priorities,
            frontier.nodes,
            frontier.queued,
        );
    }
}

// Each source that is a node is offered, in order.
fn offer_all(sources: &[u32], degrees: &[f64], frontier: &mut Frontier<'_>)
    requires { Lent (length degrees.now) (pending_in frontier.old) }
    ensures same_frontier { SameFrontier frontier.old frontier.new }
    ensures moved { Moved (Weighing degrees.now) (λ way. each (offer way) (inside (length degrees.now) sources.now)) (length degrees.now)
        (pending_in frontier.old) (pending_in frontier.new) }
{
    for &v in sources {
        offer_one(v, degrees, frontier);
    }
}

// Nothing anywhere, whatever the buffers held.
fn blank(threshold: f64, frontier: &mut Frontier<'_>, tally: &mut Tally<'_>)
    requires { RoomIn (length frontier.old.priorities.now) frontier.old tally.old }
    ensures same_frontier { SameFrontier frontier.old frontier.new }
    ensures same_tally { SameTally tally.old tally.new }
    ensures leaves { LeavesState Every (λ _. Rules.blank (length frontier.old.priorities.now) threshold) (length frontier.old.priorities.now)
        (holding_in frontier.new tally.new) }
{
    tally.estimate.fill(0.0);
    frontier.residual.fill(0.0);
    tally.visited.fill(0);
    // Lent anew first: if the field itself were lent to be read, the proof would know only its length afterwards.
    let priorities = &mut *frontier.priorities;
    let nodes = &mut *frontier.nodes;
    let queue = queue::start(threshold, priorities, nodes, frontier.queued);
    frontier.queue = queue;
    tally.pushes = 0;
}

// The state before the first turn, whatever the buffers held.
pub fn start(
    settings: Settings,
    watch: Option<Watched>,
    sources: &[u32],
    degrees: &[f64],
    frontier: &mut Frontier<'_>,
    tally: &mut Tally<'_>,
)
    requires { RoomIn (length degrees.now) frontier.old tally.old × (length sources.now ≤ 65536) }
    ensures same_frontier { SameFrontier frontier.old frontier.new }
    ensures same_tally { SameTally tally.old tally.new }
    ensures leaves { LeavesState (Weighing degrees.now) (λ way. Rules.start way settings (watch_in watch) (length degrees.now) sources.now)
        (length degrees.now) (holding_in frontier.new tally.new) }
{
    blank(settings.queue_threshold, frontier, tally);
    if watching::is_watchable(watch, degrees.len()) {
        let count = sources.len() as u32;
        gain_all(1.0 / (count as f64), sources, frontier.residual);
        offer_all(sources, degrees, frontier);
    }
}
