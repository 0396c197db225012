// The graph store's public calls. Each tests its own input, refuses it for the first reason that
// applies and leaves every buffer as it was, or does its work in linear time in the buffers lent.
#![tactic(auto)]

ghost use Rattle.std.specs.Prelude.{◌≡◌};
ghost use Rattle.refusals.specs.Answered.{number_in};
ghost use Rattle.refusals.specs.Calls.{outcome_of};
ghost use Rattle.graph_entries.specs.Outcomes.{built_for, rows_lent, graph_lent, from_edges, from_matrix, transposing, row_sums};

use refusals::refusal::Refusal;

// What C gets of `from_edges`: the number of the refusal, or 0, and how many links are kept.
#[repr(C)]
#[derive(Clone, Copy)]
pub struct Built {
    pub refusal: u32,
    pub kept: u32,
}

impl From<Result<u32, Refusal>> for Built {
    ghost from_gives = { λ answer built. built ≡ built_for answer };

    fn from(answer: Result<u32, Refusal>) -> Built {
        match answer {
            Ok(kept) => Built { refusal: 0, kept },
            Err(refusal) => Built {
                refusal: refusal.into(),
                kept: 0,
            },
        }
    }
}

// The compressed rows of a list of links, and how many links are kept.
pub fn from_edges(
    n: u32,
    from: &[u32],
    to: &[u32],
    weight: &[f64],
    starts: &mut [u32],
    columns: &mut [u32],
    weights: &mut [f64],
    positions: &mut [u32],
) -> Result<u32, Refusal>
    ensures { outcome_of (built_for result) (rows_lent starts.new columns.new weights.new positions.new)
        ≡ from_edges n from.now to.now weight.now
        (rows_lent starts.old columns.old weights.old positions.old) }
{
    let m = from.len();
    let k = n as usize;
    let differ = (to.len() != m)
        | (weight.len() != m)
        | (starts.len() != k + 1)
        | (columns.len() != m)
        | (weights.len() != m)
        | (positions.len() != k);
    refusals::check_links(k, m, 0, differ, weight)?;
    Ok(graph::build_rows(n, from, to, weight, starts, columns, weights, positions))
}

// What the Rust's `PushGraph` holds beside the rows that it is given: the transposed rows and the degrees of both.
pub fn from_matrix(
    n: u32,
    starts: &[u32],
    columns: &[u32],
    weights: &[f64],
    reverse_starts: &mut [u32],
    reverse_columns: &mut [u32],
    reverse_weights: &mut [f64],
    degrees: &mut [f64],
    reverse_degrees: &mut [f64],
    positions: &mut [u32],
) -> Result<(), Refusal>
    ensures { outcome_of (number_in result) (graph_lent (rows_lent reverse_starts.new reverse_columns.new reverse_weights.new positions.new)
        degrees.new reverse_degrees.new)
        ≡ from_matrix n starts.now columns.now weights.now
        (graph_lent (rows_lent reverse_starts.old reverse_columns.old reverse_weights.old positions.old)
        degrees.old reverse_degrees.old) }
{
    let m = columns.len();
    let k = n as usize;
    let differ = (starts.len() != k + 1)
        | (weights.len() != m)
        | (reverse_starts.len() != k + 1)
        | (reverse_columns.len() != m)
        | (reverse_weights.len() != m)
        | (degrees.len() != k)
        | (reverse_degrees.len() != k)
        | (positions.len() != k);
    refusals::check_rows(n, 0, differ, starts, columns, weights)?;
    graph::sum_rows(starts, weights, degrees);
    graph::reverse_rows(
        n,
        starts,
        columns,
        weights,
        reverse_starts,
        reverse_columns,
        reverse_weights,
        positions,
    );
    graph::sum_rows(reverse_starts, reverse_weights, reverse_degrees);
    Ok(())
}

// The transposed rows.
pub fn transpose(
    n: u32,
    starts: &[u32],
    columns: &[u32],
    weights: &[f64],
    reverse_starts: &mut [u32],
    reverse_columns: &mut [u32],
    reverse_weights: &mut [f64],
    positions: &mut [u32],
) -> Result<(), Refusal>
    ensures { outcome_of (number_in result) (rows_lent reverse_starts.new reverse_columns.new reverse_weights.new positions.new)
        ≡ transposing n starts.now columns.now weights.now
        (rows_lent reverse_starts.old reverse_columns.old reverse_weights.old positions.old) }
{
    let m = columns.len();
    let k = n as usize;
    let differ = (starts.len() != k + 1)
        | (weights.len() != m)
        | (reverse_starts.len() != k + 1)
        | (reverse_columns.len() != m)
        | (reverse_weights.len() != m)
        | (positions.len() != k);
    refusals::check_rows(n, 0, differ, starts, columns, weights)?;
    graph::reverse_rows(
        n,
        starts,
        columns,
        weights,
        reverse_starts,
        reverse_columns,
        reverse_weights,
        positions,
    );
    Ok(())
}

// The degree of each row.
pub fn row_sums(
    n: u32,
    starts: &[u32],
    columns: &[u32],
    weights: &[f64],
    degrees: &mut [f64],
) -> Result<(), Refusal>
    ensures { outcome_of (number_in result) degrees.new ≡ row_sums n starts.now columns.now weights.now degrees.old }
{
    let k = n as usize;
    let differ = (starts.len() != k + 1) | (weights.len() != columns.len()) | (degrees.len() != k);
    refusals::check_rows(n, 0, differ, starts, columns, weights)?;
    graph::sum_rows(starts, weights, degrees);
    Ok(())
}
