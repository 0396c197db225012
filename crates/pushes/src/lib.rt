// A push of a node, for both directions, over lent buffers, and what it is made of. A promise says that the state that the
// buffers stand for is moved as the rules say.
#![tactic(auto)]

ghost use Rattle.std.specs.Prelude.{◌≡◌, ◌<◌, length};
ghost use Rattle.graph.specs.Rows.{entries_of};
ghost use Rattle.rules.specs.Ways.{share_of};
ghost use Rattle.rules.specs.Ways as Ways;
ghost use Rattle.rules.specs.Rules.{each, gain, offer, pass, hand_out, push};
ghost use Rattle.pushes.specs.States.{pending, pending_in, SameFrontier};
ghost use Rattle.pushes.specs.Buffers.{nodes_in, Seated, Row, RowsIn};
ghost use Rattle.pushes.specs.Meant.{Weighs, Along, StandsIn};
ghost use Rattle.pushes.specs.Promises.{Moved, Pushed, Absorbed};

use queue::WorkQueue;

// What a solve reads: the rows of a direction in one of two pairs of lists, their starts and degrees, and the out-degrees.
// Forward reads no reverse list and makes no use of the out-degrees: lend the other two lists again, and the degrees, whose
// entry an offer reads anyway. The direction is a flag, since the rules speak of it as one.
#[derive(Clone, Copy)]
pub struct Graph<'a> {
    pub backward: bool,
    pub starts: &'a [u32],
    pub columns: &'a [u32],
    pub reverse_columns: &'a [u32],
    pub weights: &'a [f64],
    pub reverse_weights: &'a [f64],
    pub degrees: &'a [f64],
    pub out_degrees: &'a [f64],
}

// What is not settled yet: the residual of each node, and the queue, with its record, its entries and the marks of who waits.
#[derive(Drop)]
pub struct Frontier<'a> {
    pub queue: WorkQueue,
    pub residual: &'a mut [f64],
    pub priorities: &'a mut [f64],
    pub nodes: &'a mut [u32],
    pub queued: &'a mut [u64],
}

// What the pushes so far came to: how many there were, the estimate of each node, and the marks of who was pushed. No struct
// holds this one and the frontier: of the slices in a struct within a struct, whoever lent them learns nothing afterwards.
#[derive(Drop)]
pub struct Tally<'a> {
    pub pushes: u64,
    pub estimate: &'a mut [f64],
    pub visited: &'a mut [u64],
}

// e of a degree: the degree where it is above 1, else 1.
pub fn effective(degree: f64) -> f64
    ensures { result ≡ Ways.effective degree }
{
    if 1.0 < degree { degree } else { 1.0 }
}

// What an entry gets of the rest.
fn share(backward: bool, rest: f64, degree: f64, weight: f64, out_degree: f64) -> f64
    ensures { result ≡ share_of backward rest degree weight out_degree }
{
    if backward {
        rest * (weight / effective(out_degree))
    } else {
        rest * weight / degree
    }
}

// The node v is offered at its residual over e. If it waits already, it stays as it is, and neither is looked up.
pub fn offer_node(
    q: WorkQueue,
    v: u32,
    degrees: &[f64],
    residual: &[f64],
    priorities: &mut [f64],
    nodes: &mut [u32],
    queued: &mut [u64],
) -> WorkQueue
    requires { Seated (length degrees.now) v (pending q residual.now priorities.old nodes.old queued.old) }
    ensures { Moved (Weighs degrees.now v) (λ way. offer way v) (length degrees.now)
        (pending q residual.now priorities.old nodes.old queued.old) (pending result residual.now priorities.new nodes.new queued.new) }
{
    if queue::waits(queued, v) {
        return q;
    }
    let at = v as usize;
    let priority = residual[at] / effective(degrees[at]);
    queue::held::offer(q, priorities, nodes, queued, v, priority)
}

// The node v gets x, and is offered just after.
fn pass_on(v: u32, x: f64, degrees: &[f64], frontier: &mut Frontier<'_>)
    requires { Seated (length degrees.now) v (pending_in frontier.old) }
    ensures same_frontier { SameFrontier frontier.old frontier.new }
    ensures moved { Moved (Weighs degrees.now v) (λ way s. offer way v (gain x v s)) (length degrees.now)
        (pending_in frontier.old) (pending_in frontier.new) }
{
    let at = v as usize;
    frontier.residual[at] = frontier.residual[at] + x;
    // Lent anew first: if the field itself were lent to be read, the proof would know only its length afterwards.
    let residual = &mut *frontier.residual;
    frontier.queue = offer_node(
        frontier.queue,
        v,
        degrees,
        residual,
        frontier.priorities,
        frontier.nodes,
        frontier.queued,
    );
}

// Each entry of a row gets its share of the rest.
fn spread(
    rest: f64,
    degree: f64,
    columns: &[u32],
    weights: &[f64],
    graph: Graph<'_>,
    frontier: &mut Frontier<'_>,
)
    requires { Row (nodes_in graph) columns.now weights.now graph.out_degrees.now (pending_in frontier.old) }
    ensures same_frontier { SameFrontier frontier.old frontier.new }
    ensures moved { Moved (Along graph.entry.backward graph.entry.degrees.now graph.entry.out_degrees.now)
        (λ way. each (pass way rest degree) (entries_of columns.now weights.now)) (nodes_in graph.entry)
        (pending_in frontier.old) (pending_in frontier.new) }
{
    for i in 0..columns.len() {
        let v = columns[i];
        let at = v as usize;
        let x = share(
            graph.backward,
            rest,
            degree,
            weights[i],
            graph.out_degrees[at],
        );
        pass_on(v, x, graph.degrees, frontier);
    }
}

// The rest goes through the row of v, or back to v where its degree is not above 0. The row is a
// part of one of the two pairs of lists.
fn hand_out(v: u32, rest: f64, graph: Graph<'_>, frontier: &mut Frontier<'_>)
    requires { RowsIn graph × Seated (nodes_in graph) v (pending_in frontier.old) }
    ensures same_frontier { SameFrontier frontier.old frontier.new }
    ensures moved { Moved (StandsIn graph.entry) (λ way. hand_out way rest v) (nodes_in graph.entry)
        (pending_in frontier.old) (pending_in frontier.new) }
{
    let at = v as usize;
    let degree = graph.degrees[at];
    if 0.0 < degree {
        let start = graph::start_of(graph.starts, at);
        let end = graph::start_of(graph.starts, at + 1);
        let row = graph::neighbours(
            graph.backward,
            graph.columns,
            graph.reverse_columns,
            start,
            end,
        );
        let part = graph::neighbours(
            graph.backward,
            graph.weights,
            graph.reverse_weights,
            start,
            end,
        );
        spread(rest, degree, row, part, graph, frontier);
        return;
    }
    pass_on(v, rest, graph.degrees, frontier);
}

// The estimate of v takes its part of the residual of v, which is cleared.
fn absorb(alpha: f64, v: u32, estimate: &mut [f64], residual: &mut [f64])
    requires { (v < length estimate.old) × (v < length residual.old) }
    ensures { Absorbed alpha v estimate.old residual.old estimate.new residual.new }
{
    let at = v as usize;
    estimate[at] = estimate[at] + alpha * residual[at];
    residual[at] = 0.0;
}

// A push of v. Its residual is cleared before the rest is handed out, so that a link from v to
// itself brings its mass back.
pub fn push_node(
    alpha: f64,
    v: u32,
    graph: Graph<'_>,
    estimate: &mut [f64],
    frontier: &mut Frontier<'_>,
)
    requires { RowsIn graph
        × Seated (nodes_in graph) v (pending_in frontier.old) × (length estimate.old ≡ nodes_in graph) }
    ensures same_frontier { SameFrontier frontier.old frontier.new }
    ensures pushed { Pushed (StandsIn graph.entry) (λ way. push way alpha v) (nodes_in graph.entry)
        estimate.old (pending_in frontier.old) estimate.new (pending_in frontier.new) }
{
    let at = v as usize;
    let mass = frontier.residual[at];
    if mass <= 0.0 {
        return;
    }
    absorb(alpha, v, estimate, frontier.residual);
    let rest = (1.0 - alpha) * mass;
    hand_out(v, rest, graph, frontier);
}
