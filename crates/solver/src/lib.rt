// The core of the push solver, which both directions share, over lent buffers: a start, and turns while there is one more. A
// promise says that the state that the buffers stand for is moved as the rules say.
#![tactic(auto)]

ghost use Rattle.std.specs.Prelude.{◌≡◌, ◌≤◌, length};
ghost use Rattle.refusals.specs.Refusals.{Sound};
ghost use Rattle.rules.specs.Rules as Rules;
ghost use Rattle.watching.specs.Watching.{watch_in};
ghost use Rattle.pushes.specs.States.{progress_in, holding_in, SameFrontier, SameTally};
ghost use Rattle.pushes.specs.Buffers.{nodes_in, RowsIn, ReadyIn, RoomIn};
ghost use Rattle.pushes.specs.Meant.{StandsIn};
ghost use Rattle.starting.specs.Promises.{LeavesState};
ghost use Rattle.solver.specs.Promises.{Continues, Ran};

use pushes::{Frontier, Graph, Tally};
use refusals::Settings;
use watching::Watched;

// Whether there is one more turn.
fn goes_on(
    settings: Settings,
    watch: Option<Watched>,
    frontier: &Frontier<'_>,
    tally: &Tally<'_>,
) -> bool
    requires { length frontier.now.residual.now ≡ length tally.now.estimate.now }
    ensures { Continues settings (watch_in watch) (progress_in frontier.now tally.now) tally.now.estimate.now frontier.now.residual.now result }
{
    if tally.pushes < settings.max_pushes {
        if watching::stopped(watch, tally.estimate, frontier.residual) {
            return false;
        }
        return 0 < frontier.queue.size;
    }
    false
}

// Turns while there is one more.
fn run(
    settings: Settings,
    watch: Option<Watched>,
    graph: Graph<'_>,
    frontier: &mut Frontier<'_>,
    tally: &mut Tally<'_>,
)
    requires { ReadyIn graph frontier.old tally.old × Sound settings }
    ensures same_frontier { SameFrontier frontier.old frontier.new }
    ensures same_tally { SameTally tally.old tally.new }
    ensures ran { Ran (StandsIn graph.entry) settings (watch_in watch) (nodes_in graph.entry)
        (holding_in frontier.old tally.old) (holding_in frontier.new tally.new) }
{
    while goes_on(settings, watch, frontier, tally) {
        turns::turn(settings, graph, frontier, tally);
    }
}

// A whole solve, whatever the buffers held. The starts and the degrees of the graph are those of the direction.
pub fn solve(
    settings: Settings,
    watch: Option<Watched>,
    sources: &[u32],
    graph: Graph<'_>,
    frontier: &mut Frontier<'_>,
    tally: &mut Tally<'_>,
)
    requires { RowsIn graph × RoomIn (nodes_in graph) frontier.old tally.old × (length sources.now ≤ 65536) × Sound settings }
    ensures same_frontier { SameFrontier frontier.old frontier.new }
    ensures same_tally { SameTally tally.old tally.new }
    ensures leaves { LeavesState (StandsIn graph.entry) (λ way. Rules.solve way settings (watch_in watch) (nodes_in graph.entry) sources.now)
        (nodes_in graph.entry) (holding_in frontier.new tally.new) }
{
    starting::start(settings, watch, sources, graph.degrees, frontier, tally);
    run(settings, watch, graph, frontier, tally);
}
