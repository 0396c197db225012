// What the public calls of the solvers share: the tests of lengths, the answers, the extrapolated solution, and a solve
// that counts its nodes and clears the queue's workspace.
#![tactic(auto)]

pub mod lent;

ghost use Rattle.std.specs.Prelude.{false, ◌≡◌, [], ◌∷◌, ◌+◌, length, get_or};
ghost use Rattle.numbers.specs.Numbers.{+0};
ghost use Rattle.refusals.specs.Refusals.{lengths_differ, Sound};
ghost use Rattle.rules.specs.Rules as Rules;
ghost use Rattle.rules.specs.Answers.{extrapolated};
ghost use Rattle.watching.specs.Watching.{watch_in};
ghost use Rattle.pushes.specs.Buffers.{nodes_in, RowsIn};
ghost use Rattle.pushes.specs.Meant.{StandsIn};
ghost use Rattle.calls.specs.Lent.{words, done_counts, counted_for, solved_for, scored_for};
ghost use Rattle.calls.specs.Slices.{lent_in, links_lengths, rows_lengths, SameVectors, SameWorkspace};
ghost use Rattle.calls.specs.Promises.{Fits, Measured, Queried, SettledIn};

use lent::{Links, RowBuffers, Rows, SharedVectors, Vectors, Workspace};
use pushes::{Frontier, Graph, Tally};
use queue::WorkQueue;
use refusals::Settings;
use refusals::refusal::Refusal;
use watching::Watched;

// What a solve that is done comes to before its norm is taken: how many pushes it made, and how many nodes it pushed.
#[derive(Clone, Copy)]
pub struct Counts {
    pub push_count: u64,
    pub nodes_visited: u64,
}

// What a solve that is done answers.
#[derive(Clone, Copy)]
pub struct Summary {
    pub push_count: u64,
    pub nodes_visited: u64,
    pub residual_norm: f64,
}

// What C gets of a solve: the number of the refusal, or 0, and what the solve answers.
#[repr(C)]
#[derive(Clone, Copy)]
pub struct Solved {
    pub refusal: u32,
    pub push_count: u64,
    pub nodes_visited: u64,
    pub residual_norm: f64,
}

impl From<Result<Summary, Refusal>> for Solved {
    ghost from_gives = { λ answer solved. solved ≡ solved_for answer };

    fn from(answer: Result<Summary, Refusal>) -> Solved {
        match answer {
            Ok(summary) => Solved {
                refusal: 0,
                push_count: summary.push_count,
                nodes_visited: summary.nodes_visited,
                residual_norm: summary.residual_norm,
            },
            Err(refusal) => Solved {
                refusal: refusal.into(),
                push_count: 0,
                nodes_visited: 0,
                residual_norm: 0.0,
            },
        }
    }
}

// What C gets of a query: the number of the refusal, or 0, and the score.
#[repr(C)]
#[derive(Clone, Copy)]
pub struct Scored {
    pub refusal: u32,
    pub score: f64,
}

impl From<Result<f64, Refusal>> for Scored {
    ghost from_gives = { λ answer scored. scored ≡ scored_for answer };

    fn from(answer: Result<f64, Refusal>) -> Scored {
        match answer {
            Ok(score) => Scored { refusal: 0, score },
            Err(refusal) => Scored {
                refusal: refusal.into(),
                score: 0.0,
            },
        }
    }
}

// Whether a test failed before, or a buffer of a solve among n nodes has another length than stated.
pub fn solve_lengths_differ(
    before: bool,
    n: u32,
    estimate: usize,
    residual: usize,
    degrees: usize,
    priorities: usize,
    nodes: usize,
    queued: usize,
    visited: usize,
) -> bool
    ensures { result ≡ lengths_differ before ((estimate, n) ∷ (residual, n) ∷ (degrees, n) ∷ (priorities, n) ∷ (nodes, n) ∷ (queued, words n) ∷ (visited, words n) ∷ []) }
{
    let k = n as usize;
    let w = (k + 63) / 64;
    before
        | (estimate != k)
        | (residual != k)
        | (degrees != k)
        | (priorities != k)
        | (nodes != k)
        | (queued != w)
        | (visited != w)
}

// Whether a list of a call with links, or a buffer for their rows, has another length than stated.
pub fn links_lengths_differ(links: Links<'_>, made: &RowBuffers<'_>) -> bool
    ensures { result ≡ lengths_differ false (links_lengths links.entry made.now) }
{
    let m = links.from.len();
    (links.to.len() != m)
        | (links.weight.len() != m)
        | (made.starts.len() != links.nodes as usize + 1)
        | (made.columns.len() != m)
        | (made.weights.len() != m)
}

// Whether a list of a call with rows has another length than stated.
pub fn rows_lengths_differ(rows: Rows<'_>) -> bool
    ensures { result ≡ lengths_differ false (rows_lengths rows.entry) }
{
    (rows.starts.len() != rows.nodes as usize + 1) | (rows.weights.len() != rows.columns.len())
}

// The answer of a solve, with the norm of its residual if it is done.
#[tactic(auto, using(refusals::proofs::Numbered::above_zero))]
pub fn measured(counts: Result<Counts, Refusal>, vectors: &Vectors<'_>) -> Result<Summary, Refusal>
    ensures { Measured (counted_for counts) vectors.now.residual.now (solved_for result) }
{
    let counts = counts?;
    Ok(Summary {
        push_count: counts.push_count,
        nodes_visited: counts.nodes_visited,
        residual_norm: norm::compute_residual_norm(vectors.residual),
    })
}

// The score of v, +0 where it is no node.
pub fn score_at(estimate: &[f64], v: u32) -> f64
    ensures { result ≡ get_or estimate.now v +0 }
{
    let at = v as usize;
    if at < estimate.len() {
        estimate[at]
    } else {
        0.0
    }
}

// The answer of a query, which is the score of v if its solve is done.
#[tactic(auto, using(refusals::proofs::Numbered::above_zero))]
pub fn answered(
    counts: Result<Counts, Refusal>,
    vectors: &Vectors<'_>,
    v: u32,
) -> Result<f64, Refusal>
    ensures { Queried (counted_for counts).refusal vectors.now.estimate.now v (scored_for result) }
{
    counts?;
    Ok(score_at(vectors.estimate, v))
}

// The solution that the residual of a solve lets expect: the estimate and alpha times the residual, node by node.
pub fn extrapolate(found: SharedVectors<'_>, alpha: f64, solution: &mut [f64])
    requires { (length found.residual.now ≡ length found.estimate.now) × (length solution.old ≡ length found.estimate.now) }
    ensures { solution.new ≡ extrapolated alpha (length found.entry.estimate.now) found.entry.estimate.now found.entry.residual.now }
{
    for v in 0..found.estimate.len() {
        solution[v] = found.estimate[v] + alpha * found.residual[v];
    }
}

// A whole solve, as `solver::solve` has it, that counts the visited nodes and leaves the workspace of the queue and the
// marks cleared.
pub fn solve_settled(
    settings: Settings,
    watch: Option<Watched>,
    sources: &[u32],
    graph: Graph<'_>,
    vectors: &mut Vectors<'_>,
    workspace: &mut Workspace<'_>,
) -> Counts
    requires { RowsIn graph × Fits (nodes_in graph) sources.now (lent_in vectors.old graph.degrees.now workspace.old) × Sound settings }
    ensures same_vectors { SameVectors vectors.old vectors.new }
    ensures same_workspace { SameWorkspace workspace.old workspace.new }
    ensures settled { SettledIn (StandsIn graph.entry) (λ way. Rules.solve way settings (watch_in watch) (nodes_in graph.entry) sources.now)
        (nodes_in graph.entry) (done_counts result) vectors.new workspace.new }
{
    // Any record does, since the start writes it anew.
    let queue = WorkQueue {
        threshold: settings.queue_threshold,
        size: 0,
    };
    let mut frontier = Frontier {
        queue,
        residual: &mut *vectors.residual,
        priorities: &mut *workspace.priorities,
        nodes: &mut *workspace.nodes,
        queued: &mut *workspace.queued,
    };
    let mut tally = Tally {
        pushes: 0,
        estimate: &mut *vectors.estimate,
        visited: &mut *workspace.visited,
    };
    solver::solve(settings, watch, sources, graph, &mut frontier, &mut tally);
    let push_count = tally.pushes;
    let ones = marks::count(workspace.visited);
    queue::clear(workspace.priorities, workspace.nodes, workspace.queued);
    workspace.visited.fill(0);
    Counts {
        push_count,
        nodes_visited: ones as u64,
    }
}
