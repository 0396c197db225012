// One turn of a push solver, which both directions share, over lent buffers: the next node leaves the queue, and is skipped
// or pushed. A promise says that the state that the buffers stand for is moved as the rules say.
#![tactic(auto)]

ghost use Rattle.std.specs.Prelude.{◌<◌};
ghost use Rattle.refusals.specs.Refusals.{Sound};
ghost use Rattle.rules.specs.Rules as Rules;
ghost use Rattle.pushes.specs.States.{holding_in, SameFrontier, SameTally};
ghost use Rattle.pushes.specs.Buffers.{nodes_in, ReadyIn};
ghost use Rattle.pushes.specs.Meant.{StandsIn};
ghost use Rattle.turns.specs.Promises.{Visited, Adapted, Turned};

use pushes::{Frontier, Graph, Tally};
use queue::WorkQueue;
use refusals::Settings;

// The queue after so many pushes.
fn adapt(settings: Settings, pushes: u64, q: WorkQueue) -> WorkQueue
    requires { Sound settings }
    ensures { Adapted settings pushes q result }
{
    if settings.adaptive_threshold & (pushes % settings.adaptive_step == 0) {
        queue::held::adapt(q, settings)
    } else {
        q
    }
}

// The node v, which waits no more, is skipped where its residual is below epsilon × e, and else
// pushed, marked and counted.
fn visit(
    settings: Settings,
    v: u32,
    graph: Graph<'_>,
    frontier: &mut Frontier<'_>,
    tally: &mut Tally<'_>,
)
    requires { ReadyIn graph frontier.old tally.old × (v < nodes_in graph) × (tally.old.pushes < settings.max_pushes) × Sound settings }
    ensures same_frontier { SameFrontier frontier.old frontier.new }
    ensures same_tally { SameTally tally.old tally.new }
    ensures visited { Visited (StandsIn graph.entry) (λ way. Rules.visit way settings v) (nodes_in graph.entry)
        (holding_in frontier.old tally.old) (holding_in frontier.new tally.new) }
{
    let at = v as usize;
    if frontier.residual[at] < settings.epsilon * pushes::effective(graph.degrees[at]) {
        return;
    }
    pushes::push_node(settings.alpha, v, graph, tally.estimate, frontier);
    marks::mark(tally.visited, v);
    let pushes = tally.pushes + 1;
    frontier.queue = adapt(settings, pushes, frontier.queue);
    tally.pushes = pushes;
}

// The next node leaves the queue, and is visited.
pub fn turn(
    settings: Settings,
    graph: Graph<'_>,
    frontier: &mut Frontier<'_>,
    tally: &mut Tally<'_>,
)
    requires { ReadyIn graph frontier.old tally.old × (0 < frontier.old.queue.size) × (tally.old.pushes < settings.max_pushes) × Sound settings }
    ensures same_frontier { SameFrontier frontier.old frontier.new }
    ensures same_tally { SameTally tally.old tally.new }
    ensures turned { Turned (StandsIn graph.entry) settings (nodes_in graph.entry)
        (holding_in frontier.old tally.old) (holding_in frontier.new tally.new) }
{
    let popped = queue::held::pop(
        frontier.queue,
        frontier.priorities,
        frontier.nodes,
        frontier.queued,
    );
    frontier.queue = popped.queue;
    visit(settings, popped.node, graph, frontier, tally);
}
