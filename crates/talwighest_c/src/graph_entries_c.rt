// The graph store's calls, for C. Each function calls
// the library's of the same name, and promises what that does.
ghost use Rattle.std.specs.Prelude.{◌≡◌};
ghost use Rattle.refusals.specs.Calls.{outcome_of};
ghost use Rattle.graph_entries.specs.Outcomes.{rows_lent, from_edges, graph_lent, from_matrix, transposing, row_sums};

use crate::number::number_for;
use graph_entries::Built;

#[unsafe(no_mangle)]
pub extern "C" fn from_edges(
    n: u32,
    from: &[u32],
    to: &[u32],
    weight: &[f64],
    starts: &mut [u32],
    columns: &mut [u32],
    weights: &mut [f64],
    positions: &mut [u32],
) -> Built
    ensures { outcome_of result (rows_lent starts.new columns.new weights.new positions.new)
        ≡ from_edges n from.now to.now weight.now
        (rows_lent starts.old columns.old weights.old positions.old) }
{
    Built::from(graph_entries::from_edges(n, from, to, weight, starts, columns, weights, positions))
}

#[unsafe(no_mangle)]
pub extern "C" fn from_matrix(
    n: u32,
    starts: &[u32],
    columns: &[u32],
    weights: &[f64],
    reverse_starts: &mut [u32],
    reverse_columns: &mut [u32],
    reverse_weights: &mut [f64],
    degrees: &mut [f64],
    reverse_degrees: &mut [f64],
    positions: &mut [u32],
) -> u32
    ensures { outcome_of result (graph_lent (rows_lent reverse_starts.new reverse_columns.new reverse_weights.new positions.new)
        degrees.new reverse_degrees.new)
        ≡ from_matrix n starts.now columns.now weights.now
        (graph_lent (rows_lent reverse_starts.old reverse_columns.old reverse_weights.old positions.old)
        degrees.old reverse_degrees.old) }
{
    number_for(graph_entries::from_matrix(
        n,
        starts,
        columns,
        weights,
        reverse_starts,
        reverse_columns,
        reverse_weights,
        degrees,
        reverse_degrees,
        positions,
    ))
}

#[unsafe(no_mangle)]
pub extern "C" fn transpose(
    n: u32,
    starts: &[u32],
    columns: &[u32],
    weights: &[f64],
    reverse_starts: &mut [u32],
    reverse_columns: &mut [u32],
    reverse_weights: &mut [f64],
    positions: &mut [u32],
) -> u32
    ensures { outcome_of result (rows_lent reverse_starts.new reverse_columns.new reverse_weights.new positions.new)
        ≡ transposing n starts.now columns.now weights.now
        (rows_lent reverse_starts.old reverse_columns.old reverse_weights.old positions.old) }
{
    number_for(graph_entries::transpose(
        n,
        starts,
        columns,
        weights,
        reverse_starts,
        reverse_columns,
        reverse_weights,
        positions,
    ))
}

#[unsafe(no_mangle)]
pub extern "C" fn row_sums(
    n: u32,
    starts: &[u32],
    columns: &[u32],
    weights: &[f64],
    degrees: &mut [f64],
) -> u32
    ensures { outcome_of result degrees.new ≡ row_sums n starts.now columns.now weights.now degrees.old }
{
    number_for(graph_entries::row_sums(n, starts, columns, weights, degrees))
}
