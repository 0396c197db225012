// The queue's record held in a local, which is lent to the thin functions and changed where it stands. The parameters are
// plain, so that whoever calls these needs no walk by hand.
ghost use Rattle.std.specs.Prelude.{◌≡◌, ◌<◌, length};
ghost use Rattle.queue.specs.Waiting.{offered, adapted};
ghost use Rattle.queue.specs.Heap.{waiting, Heap};
ghost use Rattle.queue.specs.Promises.{Holds, Removed};

use crate::{Popped, WorkQueue, lent};
use refusals::Settings;

// Offers the node v at a priority.
pub fn offer(
    q: WorkQueue,
    priorities: &mut [f64],
    nodes: &mut [u32],
    marks: &mut [u64],
    v: u32,
    priority: f64,
) -> WorkQueue
    requires heap { Heap q.size priorities.old nodes.old marks.old }
    requires v_in_bounds { v < length priorities.old }
    ensures threshold_value { result.threshold ≡ q.threshold }
    ensures holds { Holds (offered q.threshold v priority (waiting q.size priorities.old nodes.old))
        (length priorities.old) (length marks.old)
        result.size priorities.new nodes.new marks.new }
{
    let mut held = q;
    lent::offer(&mut held, priorities, nodes, marks, v, priority);
    held
}

// Takes the node with the highest priority out, of equal ones the one with the highest number.
pub fn pop(q: WorkQueue, priorities: &mut [f64], nodes: &mut [u32], marks: &mut [u64]) -> Popped
    requires heap { Heap q.size priorities.old nodes.old marks.old }
    requires size_nonzero { 0 < q.size }
    ensures threshold_value { result.queue.threshold ≡ q.threshold }
    ensures removed { Removed result.node (waiting q.size priorities.old nodes.old)
        (length priorities.old) (length marks.old)
        result.queue.size priorities.new nodes.new marks.new }
{
    let mut held = q;
    let node = lent::pop(&mut held, priorities, nodes, marks);
    Popped { queue: held, node }
}

// Adapts the threshold to the size: a long queue raises it, and a short one lowers it as far as a
// floor.
pub fn adapt(q: WorkQueue, settings: Settings) -> WorkQueue
    ensures { (result.threshold ≡ adapted settings q.size q.threshold) × (result.size ≡ q.size) }
{
    let mut held = q;
    lent::adapt(&mut held, settings);
    held
}
