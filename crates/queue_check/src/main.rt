// Replays a recording of the repaired Rust's work queue through `queue`, and compares every popped
// node and every size. The recording is a list of records of 16 bytes, which `recording` reads;
// oracle/runs/src/bin/record makes it.
#![tactic(auto)]

mod recording;

ghost use Rattle.queue.specs.Heap.{Heap};

use crate::recording::{Action, Operation};
use queue::WorkQueue;
use std::fmt;
use std::fmt::Write;

// The numbers of the standard streams, as POSIX has them.
const STDIN_FILENO: i32 = 0;

const STDOUT_FILENO: i32 = 1;

// The queue that is replayed, with a place for each of 65,536 nodes.
#[derive(Drop)]
struct Replay {
    queue: WorkQueue,
    priorities: [f64; 65536],
    nodes: [u32; 65536],
    marks: [u64; 1024],
    ghost ready: { Heap queue.size priorities nodes marks },
}

impl Replay {
    // An empty queue.
    fn new() -> Replay {
        let priorities = [0.0; 65536];
        let nodes = [0; 65536];
        let mut marks = [0; 1024];
        let queue = queue::start(0.0, &priorities, &nodes, &mut marks);
        Replay {
            queue,
            priorities,
            nodes,
            marks,
        }
    }

    // Starts the queue anew.
    fn start(&mut self, threshold: f64) {
        self.queue = queue::start(threshold, &self.priorities, &self.nodes, &mut self.marks);
    }

    // Offers a node at a priority.
    fn offer(&mut self, node: u16, priority: f64) {
        queue::lent::offer(
            &mut self.queue,
            &mut self.priorities,
            &mut self.nodes,
            &mut self.marks,
            u32::from(node),
            priority,
        );
    }

    // Pops a node, if there is one.
    fn pop(&mut self) -> Option<u32> {
        if self.queue.size == 0 {
            return None;
        }
        Some(queue::lent::pop(
            &mut self.queue,
            &mut self.priorities,
            &mut self.nodes,
            &mut self.marks,
        ))
    }

    // Adapts the threshold to the size.
    fn adapt(&mut self) {
        queue::lent::adapt(&mut self.queue, refusals::usual(0.0, 0.0, 0.0, 0, true));
    }

    // Does what a record says, and tells whether that can be done and a popped node is the recorded
    // one.
    fn perform(&mut self, o: Operation) -> bool {
        match o.action {
            Some(Action::Start) => self.start(o.number),
            Some(Action::Offer) => self.offer(o.node, o.number),
            Some(Action::OfferUpTo) => {
                for node in 0..=o.node {
                    self.offer(node, o.number);
                }
            }
            Some(Action::Pop) => return self.pop() == Some(u32::from(o.node)),
            Some(Action::PopNobody) => {}
            Some(Action::Adapt) => self.adapt(),
            None => return false,
        }
        true
    }

    // Replays the records in some bytes.
    fn replay(&mut self, tally: &mut Tally, bytes: &[u8]) {
        let (records, _) = bytes.as_chunks::<16>();
        for record in records {
            let o = Operation::read(record);
            let agrees = self.perform(o) & (self.queue.size == o.size);
            tally.count(o, agrees);
        }
    }
}

// The number of operations, of those that start a queue, and of those that differ.
#[derive(Drop)]
struct Tally {
    sequences: u64,
    operations: u64,
    differ: u64,
}

impl Tally {
    // Counts one more operation.
    fn count(&mut self, o: Operation, agrees: bool) {
        let starts = matches!(o.action, Some(Action::Start));
        self.sequences = self.sequences.wrapping_add(u64::from(starts));
        self.operations = self.operations.wrapping_add(1);
        self.differ = self.differ.wrapping_add(u64::from(!agrees));
    }
}

// The line with its end, so that the last word and the end are one write.
impl fmt::Display for Tally {
    fn fmt<W: Write>(&self, f: &mut fmt::Formatter<W>) -> fmt::Result {
        let Tally {
            sequences,
            operations,
            differ,
        } = self;
        write!(
            f,
            "{sequences} sequences, {operations} operations, {differ} differ\n"
        )
    }
}

// Standard output as a writer of text, which passes over a write that fails. `println!` would rest
// on more functions of the C library than `write`. The type stands in `roots` too, since each
// library crate is proved without axioms.
#[derive(Drop)]
struct Output;

impl Write for Output {
    fn write_str(&mut self, text: &str) -> fmt::Result {
        io::write_all(STDOUT_FILENO, text.as_bytes());
        Ok(())
    }
}

// Replays the whole recording, which has at most 4 MiB: each read gives 4,096 records, the last
// ones fewer and then none.
fn main() {
    let mut replay = Replay::new();
    let mut tally = Tally {
        sequences: 0,
        operations: 0,
        differ: 0,
    };
    let mut buffer = io::large_buffer();
    for _ in 0..64u8 {
        let n = io::read_full(STDIN_FILENO, &mut buffer);
        replay.replay(&mut tally, &buffer[..n]);
    }
    let _ = write!(Output, "{tally}");
}
