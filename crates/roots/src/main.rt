// Shows the square roots of a few whole numbers, each by its bit pattern.
#![tactic(auto)]

use std::fmt;
use std::fmt::Write;

// The number of standard output, as POSIX has it.
const STDOUT_FILENO: i32 = 1;

// Standard output as a writer of text, which passes over a write that fails. `println!` would rest
// on more functions of the C library than `write`. The type stands in `queue_check` too, since each
// library crate is proved without axioms.
#[derive(Drop)]
struct Output;

impl Write for Output {
    fn write_str(&mut self, text: &str) -> fmt::Result {
        io::write_all(STDOUT_FILENO, text.as_bytes());
        Ok(())
    }
}

// Shows the root of n. The digits are one write: with `{:016x}` the zeros in front of a short number would be another.
fn show(n: u32) {
    let bits = numbers::bits_of(norm::square_root(f64::from(n)));
    let _ = write!(Output, "square root of {n}: ");
    io::print_hex(STDOUT_FILENO, bits, 16);
    let _ = writeln!(Output);
}

fn main() {
    for n in [0, 1, 2, 10, 144, 1_000_000] {
        show(n);
    }
}
