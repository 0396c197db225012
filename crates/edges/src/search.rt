// The search for a link in rows that are tested already.
ghost use Rattle.std.specs.Prelude.{◌≡◌, eqb, length};
ghost use Rattle.numbers.specs.Tables.{any};
ghost use Rattle.graph.specs.Rows.{entries_of, rows_in};
ghost use Rattle.graph.specs.Store.{Rowed};
ghost use Rattle.edges.specs.Edges.{first_to, edge_in};
ghost use Rattle.edges.specs.Passed.{Passed};

// Whether one of the columns is the node. It looks at each, found or not, so that a compiler can look at several at once.
fn any_is(node: u32, columns: &[u32]) -> bool
    ensures { result ≡ any (λ v. eqb v node) columns.now }
{
    columns
        .iter()
        .fold(false, |found, column| found | (*column == node))
}

// How many columns a search can pass over, eight at a time: none of them is the node.
fn pass_over(columns: &[u32], node: u32) -> usize
    ensures { Passed node columns.now result }
{
    let (blocks, _) = columns.as_chunks::<8>();
    let passed = blocks
        .iter()
        .take_while(|block| !any_is(node, block.as_slice()))
        .count();
    8 * passed
}

// The first entry of a row that leads to the node. The row is given by its part of the columns and of the weights.
pub fn first_to(columns: &[u32], weights: &[f64], node: u32) -> Option<f64>
    requires { length weights.now ≡ length columns.now }
    ensures { result ≡ first_to node (entries_of columns.now weights.now) }
{
    let passed = pass_over(columns, node);
    let rest = columns[passed..].iter().position(|column| *column == node)?;
    Some(weights[passed + rest])
}

// The first link between two nodes, among the n rows that the lists stand for. A node out of range has none.
pub fn edge_between(
    n: u32,
    starts: &[u32],
    columns: &[u32],
    weights: &[f64],
    from: u32,
    to: u32,
) -> Option<f64>
    requires { Rowed n starts.now columns.now weights.now }
    ensures { result ≡ edge_in from to (rows_in n starts.now columns.now weights.now) }
{
    if n <= from {
        return None;
    }
    let row = from as usize;
    let start = graph::start_of(starts, row);
    let end = graph::start_of(starts, row + 1);
    first_to(
        graph::neighbours(false, columns, columns, start, end),
        graph::neighbours(false, weights, weights, start, end),
        to,
    )
}
