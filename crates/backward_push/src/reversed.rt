// The reverse rows of lent rows and the degrees of both, which a backward solve works out for itself.
ghost use Rattle.std.specs.Prelude.{true, false, ◌≡◌, [], ◌∷◌, ◌+◌, length, replicate};
ghost use Rattle.numbers.specs.Numbers.{+0};
ghost use Rattle.refusals.specs.Refusals.{lengths_differ};
ghost use Rattle.graph.specs.Store.{RowBuffers};
ghost use Rattle.pushes.specs.Buffers.{lists_in};
ghost use Rattle.backward_push.specs.Slices.{SameReverseBuffers};
ghost use Rattle.backward_push.specs.Promises.{ReversedIn, backward_lists, forward_lists};

use calls::lent::Rows;
use pushes::Graph;

// Lent for the reverse rows and for the degrees of the rows and of the reverse rows, and left zero.
#[derive(Drop)]
pub struct ReverseBuffers<'a> {
    pub starts: &'a mut [u32],
    pub columns: &'a mut [u32],
    pub weights: &'a mut [f64],
    pub in_degrees: &'a mut [f64],
    pub out_degrees: &'a mut [f64],
}

// Whether a test failed before, or a buffer for reverse rows of m entries, or for out-degrees, has another length than
// stated.
pub fn reverse_lengths_differ(before: bool, n: u32, m: usize, reverse: &ReverseBuffers<'_>) -> bool
    ensures { result ≡ lengths_differ before ((length reverse.now.starts.now, n + 1) ∷ (length reverse.now.columns.now, m)
        ∷ (length reverse.now.weights.now, m) ∷ (length reverse.now.out_degrees.now, n) ∷ []) }
{
    let k = n as usize;
    before
        | (reverse.starts.len() != k + 1)
        | (reverse.columns.len() != m)
        | (reverse.weights.len() != m)
        | (reverse.out_degrees.len() != k)
}

// Works out the reverse rows, and the degrees of both.
pub fn reverse(rows: Rows<'_>, reverse: &mut ReverseBuffers<'_>, positions: &mut [u32])
    requires { RowBuffers rows.nodes rows.starts.now rows.columns.now rows.weights.now reverse.old.starts.now reverse.old.columns.now reverse.old.weights.now positions.old
        × (length reverse.old.in_degrees.now ≡ rows.nodes) × (length reverse.old.out_degrees.now ≡ rows.nodes) }
    ensures same_reverse { SameReverseBuffers reverse.old reverse.new }
    ensures reversed { ReversedIn rows.entry reverse.new }
{
    graph::sum_rows(rows.starts, rows.weights, reverse.out_degrees);
    // Lent anew first: if the fields themselves were lent to be read, the proof would know only their lengths afterwards.
    let starts = &mut *reverse.starts;
    let weights = &mut *reverse.weights;
    graph::reverse_rows(
        rows.nodes,
        rows.starts,
        rows.columns,
        rows.weights,
        starts,
        reverse.columns,
        weights,
        positions,
    );
    graph::sum_rows(starts, weights, reverse.in_degrees);
}

// The graph of a backward solve: the reverse rows, and the degrees of both.
pub fn backward_graph<'a>(rows: Rows<'a>, reverse: &'a ReverseBuffers<'_>) -> Graph<'a>
    ensures { (result.backward ≡ true) × (lists_in result ≡ backward_lists rows.entry reverse.now) }
{
    Graph {
        backward: true,
        starts: reverse.starts,
        columns: rows.columns,
        reverse_columns: reverse.columns,
        weights: rows.weights,
        reverse_weights: reverse.weights,
        degrees: reverse.in_degrees,
        out_degrees: reverse.out_degrees,
    }
}

// The graph of a forward solve beside it: the rows, and their degrees.
pub fn forward_graph<'a>(rows: Rows<'a>, reverse: &'a ReverseBuffers<'_>) -> Graph<'a>
    ensures { (result.backward ≡ false) × (lists_in result ≡ forward_lists rows.entry reverse.now) }
{
    Graph {
        backward: false,
        starts: rows.starts,
        columns: rows.columns,
        reverse_columns: reverse.columns,
        weights: rows.weights,
        reverse_weights: reverse.weights,
        degrees: reverse.out_degrees,
        out_degrees: reverse.out_degrees,
    }
}

// Clears what `reverse` worked out.
pub fn clear(reverse: &mut ReverseBuffers<'_>)
    ensures same_reverse { SameReverseBuffers reverse.old reverse.new }
    ensures cleared { (reverse.new.starts.now ≡ replicate (length reverse.old.starts.now) 0)
        × (reverse.new.columns.now ≡ replicate (length reverse.old.columns.now) 0)
        × (reverse.new.weights.now ≡ replicate (length reverse.old.weights.now) +0)
        × (reverse.new.in_degrees.now ≡ replicate (length reverse.old.in_degrees.now) +0)
        × (reverse.new.out_degrees.now ≡ replicate (length reverse.old.out_degrees.now) +0) }
{
    reverse.starts.fill(0);
    reverse.columns.fill(0);
    reverse.weights.fill(0.0);
    reverse.in_degrees.fill(0.0);
    reverse.out_degrees.fill(0.0);
}
