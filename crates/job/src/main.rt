// Reads one job from standard input, and prints its text.
#![tactic(auto)]

// The numbers of the standard streams, as POSIX has them. The runtime's own streams would rest on
// more functions of the C library than `read` and `write`, and end with another status where a
// write fails.
const STDIN_FILENO: i32 = 0;

const STDOUT_FILENO: i32 = 1;

// A byte more than the longest job has, so that a longer input is known without being read to its end.
const LONG: usize = 16_505;

fn main() {
    let mut bytes = [0u8; LONG];
    let mut text = [0u8; job_answer::ROOM];
    let read = io::read_full(STDIN_FILENO, &mut bytes);
    let told = job_answer::run(&bytes[..read], &mut text);
    io::write_all(STDOUT_FILENO, &text[..told]);
}
