// Whether one node links to another, and how strongly, for C. Each function calls
// the library's of the same name, and promises what that does.
ghost use Rattle.std.specs.Prelude.{◌≡◌};
ghost use Rattle.edges.specs.Outcomes.{has_edge, edge_weight};

use edges::{Found, Weighed};

#[unsafe(no_mangle)]
pub extern "C" fn has_edge(
    n: u32,
    starts: &[u32],
    columns: &[u32],
    weights: &[f64],
    from: u32,
    to: u32,
) -> Found
    ensures { result ≡ has_edge n starts.now columns.now weights.now from to }
{
    Found::from(edges::has_edge(n, starts, columns, weights, from, to))
}

#[unsafe(no_mangle)]
pub extern "C" fn edge_weight(
    n: u32,
    starts: &[u32],
    columns: &[u32],
    weights: &[f64],
    from: u32,
    to: u32,
) -> Weighed
    ensures { result ≡ edge_weight n starts.now columns.now weights.now from to }
{
    Weighed::from(edges::edge_weight(n, starts, columns, weights, from, to))
}
