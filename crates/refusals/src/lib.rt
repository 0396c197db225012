// The tests of the public calls: what a call is refused for, if anything. Each answers with the first refusal that applies.
#![tactic(auto)]

pub mod own_number;
pub mod refusal;

ghost use Rattle.std.specs.Prelude.{◌≡◌, length, get_or, leb};
ghost use Rattle.numbers.specs.Tables.{any};
ghost use Rattle.refusals.specs.Usual.{usual};
ghost use Rattle.refusals.specs.Answered.{number_in};
ghost use Rattle.refusals.specs.Refusals.{◌or◌, ◌when◌, refuse_nodes, refuse_links, refuse_listed, refuse_rows, refuse_weights, refuse_alpha, refuse_adaptive, refuse_settings, refuse_precision, amount, wrong, falls, within};

use crate::refusal::{Refusal, refuse_if};

// The settings of a solve. Those after the flag are the adaptive numbers: after how many pushes the
// threshold adapts, above and below which sizes of the queue, by which factors, and the floor above
// which it falls.
#[repr(C)]
#[derive(Clone, Copy)]
pub struct Settings {
    pub alpha: f64,
    pub epsilon: f64,
    pub queue_threshold: f64,
    pub max_pushes: u64,
    pub adaptive_threshold: bool,
    pub adaptive_step: u64,
    pub upper_size: u32,
    pub lower_size: u32,
    pub raising_factor: f64,
    pub lowering_factor: f64,
    pub threshold_floor: f64,
}

// Settings with the adaptive numbers that a solve has where nobody chose others.
pub fn usual(
    alpha: f64,
    epsilon: f64,
    queue_threshold: f64,
    max_pushes: u64,
    adaptive_threshold: bool,
) -> Settings
    ensures { result ≡ usual alpha epsilon queue_threshold max_pushes adaptive_threshold }
{
    Settings {
        alpha,
        epsilon,
        queue_threshold,
        max_pushes,
        adaptive_threshold,
        adaptive_step: 1_000,
        upper_size: 10_000,
        lower_size: 100,
        raising_factor: 1.1,
        lowering_factor: 0.9,
        threshold_floor: 1e-12,
    }
}

// Whether x is from a to b.
fn is_within(a: f64, b: f64, x: f64) -> bool
    ensures { result ≡ within a b x }
{
    (a <= x) & (x <= b)
}

// Whether x is finite and not below zero.
fn is_amount(x: f64) -> bool
    ensures { result ≡ amount x }
{
    (0.0 <= x) & (x < 1.0 / 0.0)
}

// Whether a weight is not from 0 to 1,048,576.
fn is_wrong(w: f64) -> bool
    ensures { result ≡ wrong w }
{
    !is_within(0.0, 1048576.0, w)
}

// Whether one of the weights is wrong. This and the two below look at every element, found or not, so that a compiler can look
// at several at once.
// One function over any test would take it as a closure, whose contract would be longer than the loop that it saves.
fn any_wrong(weights: &[f64]) -> bool
    ensures { result ≡ any wrong weights.now }
{
    let mut found = false;
    for weight in weights {
        found = found | is_wrong(*weight);
    }
    found
}

// Whether one of the columns is not below n.
fn any_past(n: u32, columns: &[u32]) -> bool
    ensures { result ≡ any (λ v. leb n v) columns.now }
{
    let mut found = false;
    for column in columns {
        found = found | (n <= *column);
    }
    found
}

// Whether the numbers fall somewhere.
fn any_fall(starts: &[u32]) -> bool
    ensures { result ≡ falls starts.now }
{
    let mut found = false;
    for i in 1..starts.len() {
        found = found | (starts[i] < starts[i - 1]);
    }
    found
}

// What stands at i, or 0 past the end.
fn at(a: &[u32], i: usize) -> u32
    ensures { result ≡ get_or a.now i 0 }
{
    if i < a.len() { a[i] } else { 0 }
}

// The rows of n nodes.
fn check_starts(n: u32, starts: &[u32], columns: &[u32]) -> Result<(), Refusal>
    ensures { number_in result ≡ refuse_rows n starts.now columns.now }
{
    refuse_if(
        (at(starts, 0) != 0)
            | any_fall(starts)
            | (at(starts, n as usize) as usize != columns.len())
            | any_past(n, columns),
        Refusal::UnsoundRows,
    )
}

// The weights of a list of links or of rows.
fn check_weights(weights: &[f64]) -> Result<(), Refusal>
    ensures { number_in result ≡ refuse_weights weights.now }
{
    refuse_if(any_wrong(weights), Refusal::UnsoundWeight)
}

// Alpha.
pub fn check_alpha(a: f64) -> Result<(), Refusal>
    ensures { number_in result ≡ refuse_alpha a }
{
    refuse_if(!is_within(0.0, 1.0, a), Refusal::UnsoundSettings)
}

// The adaptive numbers of the settings.
fn check_adaptive(s: Settings) -> Result<(), Refusal>
    ensures { number_in result ≡ refuse_adaptive s }
{
    refuse_if(
        (s.adaptive_step == 0)
            | (s.upper_size < s.lower_size)
            | !is_amount(s.raising_factor)
            | !is_amount(s.lowering_factor)
            | !is_amount(s.threshold_floor),
        Refusal::UnsoundSettings,
    )
}

// The settings of a solve.
pub fn check_settings(s: Settings) -> Result<(), Refusal>
    ensures { number_in result ≡ refuse_settings s }
{
    check_alpha(s.alpha)?;
    refuse_if(
        !is_amount(s.epsilon) | !is_amount(s.queue_threshold) | (1_000_000_000 < s.max_pushes),
        Refusal::UnsoundSettings,
    )?;
    check_adaptive(s)
}

// A precision.
pub fn check_precision(p: f64) -> Result<(), Refusal>
    ensures { number_in result ≡ refuse_precision p }
{
    refuse_if(!is_amount(p), Refusal::UnsoundPrecision)
}

// n nodes, m links, s sources or targets, and whether a lent buffer has another length than stated.
pub fn check_sizes(n: usize, m: usize, s: usize, differ: bool) -> Result<(), Refusal>
    ensures { number_in result ≡ (refuse_nodes n or refuse_links m or refuse_listed s or 3 when differ) }
{
    refuse_if(65536 < n, Refusal::TooManyNodes)?;
    refuse_if(1_048_576 < m, Refusal::TooManyLinks)?;
    refuse_if(65536 < s, Refusal::TooManyLinks)?;
    refuse_if(differ, Refusal::WrongLength)
}

// A call with a list of links.
pub fn check_links(n: usize, m: usize, s: usize, differ: bool, ws: &[f64]) -> Result<(), Refusal>
    ensures { number_in result ≡ ((refuse_nodes n or refuse_links m or refuse_listed s or 3 when differ) or refuse_weights ws.now) }
{
    check_sizes(n, m, s, differ)?;
    check_weights(ws)
}

// A call with rows.
pub fn check_rows(
    n: u32,
    s: usize,
    differ: bool,
    starts: &[u32],
    columns: &[u32],
    ws: &[f64],
) -> Result<(), Refusal>
    ensures { number_in result ≡ ((refuse_nodes n or refuse_links (length columns.now) or refuse_listed s or 3 when differ)
        or refuse_rows n starts.now columns.now or refuse_weights ws.now) }
{
    check_sizes(n as usize, columns.len(), s, differ)?;
    // Every weight is read, even after a start or a column has failed.
    let weights_checked = check_weights(ws);
    check_starts(n, starts, columns)?;
    weights_checked
}
