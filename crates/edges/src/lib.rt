// Whether one node links to another, and how strongly: two public calls over rows. Each tests the whole rows, refuses
// them for the first reason that applies, or searches one row up to the first match. Neither writes anything.
#![tactic(auto)]

pub mod search;

ghost use Rattle.std.specs.Prelude.{◌≡◌};
ghost use Rattle.refusals.specs.Answered.{number_in};
ghost use Rattle.edges.specs.Outcomes.{found_for, weighed_for, asked_refusal, has_edge, edge_weight};

use refusals::refusal::Refusal;

// What C gets of `has_edge`: the number of the refusal, or 0, and whether there is a link.
#[repr(C)]
#[derive(Clone, Copy)]
pub struct Found {
    pub refusal: u32,
    pub found: bool,
}

impl From<Result<bool, Refusal>> for Found {
    ghost from_gives = { λ answer found. found ≡ found_for answer };

    fn from(answer: Result<bool, Refusal>) -> Found {
        match answer {
            Ok(found) => Found { refusal: 0, found },
            Err(refusal) => Found {
                refusal: refusal.into(),
                found: false,
            },
        }
    }
}

// What C gets of `edge_weight`: the same, and the weight, which is +0 if there is no link.
#[repr(C)]
#[derive(Clone, Copy)]
pub struct Weighed {
    pub refusal: u32,
    pub found: bool,
    pub weight: f64,
}

impl From<Result<Option<f64>, Refusal>> for Weighed {
    ghost from_gives = { λ answer weighed. weighed ≡ weighed_for answer };

    fn from(answer: Result<Option<f64>, Refusal>) -> Weighed {
        match answer {
            Ok(edge) => Weighed {
                refusal: 0,
                found: edge.is_some(),
                weight: edge.unwrap_or(0.0),
            },
            Err(refusal) => Weighed {
                refusal: refusal.into(),
                found: false,
                weight: 0.0,
            },
        }
    }
}

// The tests 1 to 5 of the rows.
fn check(n: u32, starts: &[u32], columns: &[u32], weights: &[f64]) -> Result<(), Refusal>
    ensures { number_in result ≡ asked_refusal n starts.now columns.now weights.now }
{
    let differ = (starts.len() != n as usize + 1) | (weights.len() != columns.len());
    refusals::check_rows(n, 0, differ, starts, columns, weights)
}

// Whether there is a link.
pub fn has_edge(
    n: u32,
    starts: &[u32],
    columns: &[u32],
    weights: &[f64],
    from: u32,
    to: u32,
) -> Result<bool, Refusal>
    ensures { found_for result ≡ has_edge n starts.now columns.now weights.now from to }
{
    check(n, starts, columns, weights)?;
    Ok(search::edge_between(n, starts, columns, weights, from, to).is_some())
}

// The weight of the first link, if there is one.
pub fn edge_weight(
    n: u32,
    starts: &[u32],
    columns: &[u32],
    weights: &[f64],
    from: u32,
    to: u32,
) -> Result<Option<f64>, Refusal>
    ensures { weighed_for result ≡ edge_weight n starts.now columns.now weights.now from to }
{
    check(n, starts, columns, weights)?;
    Ok(search::edge_between(n, starts, columns, weights, from, to))
}
