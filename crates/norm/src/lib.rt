// The correctly rounded square root of an f64, in integer arithmetic on its bit pattern, and the
// Euclidean norm of a slice by it.
#![tactic(auto)]

ghost use Rattle.std.specs.Prelude.{◌≡◌, ◌+◌, ◌*◌, ◌^◌, ◌≤◌, ◌<◌};
ghost use Rattle.std.specs.Float.{nan, binary64};
ghost use Rattle.std.specs.Float.Ieee.{of_bits};
ghost use Rattle.norm.specs.SquareRoot.{Root};
ghost use Rattle.norm.specs.Norm.{Norm};
ghost use Rattle.norm.specs.Steps.{WholeRoot, FloorRoot, NearRoot, Normal, Even, Patterned};

// A number as a significand and the exponent of a power of two, or of four.
#[derive(Clone, Copy)]
struct Scaled {
    significand: u64,
    exponent: u64,
}

// The whole part of a root, and what its square leaves of the number.
#[derive(Clone, Copy)]
struct Part {
    root: u64,
    rest: u64,
}

// One digit more of the root, where the number goes on by the two digits `next`. The digit is
// worked out without a branch, which no processor could foresee.
fn next_digit(p: Part, next: u64) -> Part
    requires { (next < 4) × (p.root < 2 ^ 53) × (p.rest ≤ 2 * p.root) }
    ensures { WholeRoot (4 * (p.root * p.root + p.rest) + next) result.root result.rest × (result.root ≤ 2 * p.root + 1) }
{
    let odd = p.root * 4 + 1;
    let all = p.rest * 4 + next;
    let digit = (odd <= all) as u64;
    let root = p.root * 2 + digit;
    let rest = all - digit * odd;
    Part { root, rest }
}

// The root of s, digit by digit.
fn whole_root(s: u64) -> Part
    requires { s < 2 ^ 54 }
    ensures { WholeRoot s result.root result.rest × (result.root < 2 ^ 27) }
{
    let mut part = Part { root: 0, rest: 0 };
    let mut below = s;
    for _ in 0..27u64 {
        part = next_digit(part, below / 0x10_0000_0000_0000);
        below = below % 0x10_0000_0000_0000 * 4;
    }
    part
}

// The whole part of the root of s * 2^54: the root of s gives its upper half, and a division of what
// is left gives the lower one, at most one too high.
fn floor_root(s: u64) -> u64
    requires { (2 ^ 52 ≤ s) × (s < 2 ^ 54) }
    ensures { FloorRoot (s * 2 ^ 54) result }
{
    let high = whole_root(s);
    let upper = high.root;
    let left = high.rest * 0x800_0000;
    let twice = upper * 2;
    let lower = left / twice;
    let root = upper * 0x800_0000 + lower;
    if left % twice * 0x800_0000 < lower * lower {
        root - 1
    } else {
        root
    }
}

// The whole number nearest to the root of s * 2^52. The root's last digit, worth a half, says
// whether to go up: no number here has a root that ends in exactly one half.
fn near_root(s: u64) -> u64
    requires { (2 ^ 52 ≤ s) × (s + 2 ≤ 2 ^ 54) }
    ensures { NearRoot s result }
{
    let root = floor_root(s);
    (root + 1) / 2
}

// The same number with a significand of 53 digits.
fn normalized(s: u64, h: u64) -> Scaled
    requires { (0 < s) × (s < 2 ^ 53) × (52 ≤ h) }
    ensures { Normal s h result.significand result.exponent }
{
    let mut t = s;
    let mut g = h;
    while t < 0x10_0000_0000_0000 {
        t = t * 2;
        g = g - 1;
    }
    Scaled {
        significand: t,
        exponent: g,
    }
}

// The same number as a significand times a power of four.
fn evened(s: u64, h: u64) -> Scaled
    requires { (2 ^ 52 ≤ s) × (s < 2 ^ 53) }
    ensures { Even s h result.significand result.exponent }
{
    let g = h / 2;
    if h % 2 == 0 {
        Scaled {
            significand: s,
            exponent: g,
        }
    } else {
        Scaled {
            significand: s * 2,
            exponent: g,
        }
    }
}

// The pattern of the root of s * 2^j units of 2^-1074.
fn root_of(s: u64, j: u64) -> u64
    requires { (0 < s) × (s < 2 ^ 53) × (j < 2046) }
    ensures { Patterned s j result }
{
    let n = normalized(s, j + 64);
    let e = evened(n.significand, n.exponent);
    let q = near_root(e.significand);
    (e.exponent + 479) * 0x10_0000_0000_0000 + q
}

// The pattern of the root of what the pattern b of a finite number above zero stands for.
fn root_bits(b: u64) -> u64
    requires { (0 < b) × (b < 2047 * 2 ^ 52) }
    ensures { (result < 2047 * 2 ^ 52) × Root (of_bits binary64 b) (of_bits binary64 result) }
{
    let field = b / 0x10_0000_0000_0000;
    let digits = b % 0x10_0000_0000_0000;
    if field == 0 {
        root_of(digits, 0)
    } else {
        root_of(0x10_0000_0000_0000 + digits, field - 1)
    }
}

// The square root, rounded to the nearest f64: a NaN for a NaN and for whatever is below zero.
pub fn square_root(x: f64) -> f64
    ensures { Root x result }
{
    if x.is_nan() {
        return x;
    }
    let b = f64::to_bits(x);
    if b == 0 {
        return x;
    }
    if b == 0x8000_0000_0000_0000 {
        return x;
    }
    if 0x8000_0000_0000_0000 < b {
        return f64::NAN;
    }
    if 0x7ff0_0000_0000_0000 <= b {
        return x;
    }
    f64::from_bits(root_bits(b))
}

// The squares of the elements, added from left to right, and the root of the sum.
pub fn compute_residual_norm(residual: &[f64]) -> f64
    ensures { Norm residual.now result }
{
    let sum = residual.iter().copied().fold(0.0, |sum, v| sum + v * v);
    square_root(sum)
}
