// The queue's record, lent by `&mut` and changed where it stands. Each function is thin: it reads the record, calls the
// function that takes it by value, and stores what came back.
ghost use Rattle.std.specs.Prelude.{◌≡◌, ◌<◌, length};
ghost use Rattle.queue.specs.Waiting.{offered, adapted};
ghost use Rattle.queue.specs.Heap.{waiting, Heap};
ghost use Rattle.queue.specs.Promises.{Holds, Removed};

use crate::WorkQueue;
use refusals::Settings;

// Offers the node v at a priority, as `push_if_threshold`.
pub fn offer(
    q: &mut WorkQueue,
    priorities: &mut [f64],
    nodes: &mut [u32],
    marks: &mut [u64],
    v: u32,
    priority: f64,
)
    requires heap { Heap q.old.size priorities.old nodes.old marks.old }
    requires v_in_bounds { v < length priorities.old }
    ensures threshold_unchanged { q.new.threshold ≡ q.old.threshold }
    ensures holds { Holds (offered q.old.threshold v priority (waiting q.old.size priorities.old nodes.old))
        (length priorities.old) (length marks.old)
        q.new.size priorities.new nodes.new marks.new }
{
    *q = crate::push_if_threshold(*q, priorities, nodes, marks, v, priority);
}

// Takes the node with the highest priority out, as the `pop` by value.
pub fn pop(q: &mut WorkQueue, priorities: &mut [f64], nodes: &mut [u32], marks: &mut [u64]) -> u32
    requires heap { Heap q.old.size priorities.old nodes.old marks.old }
    requires size_nonzero { 0 < q.old.size }
    ensures threshold_unchanged { q.new.threshold ≡ q.old.threshold }
    ensures removed { Removed result (waiting q.old.size priorities.old nodes.old)
        (length priorities.old) (length marks.old)
        q.new.size priorities.new nodes.new marks.new }
{
    let popped = crate::pop(*q, priorities, nodes, marks);
    *q = popped.queue;
    popped.node
}

// Adapts the threshold to the size, as `adaptive_threshold`.
pub fn adapt(q: &mut WorkQueue, settings: Settings)
    ensures { (q.new.threshold ≡ adapted settings q.old.size q.old.threshold) × (q.new.size ≡ q.old.size) }
{
    *q = crate::adaptive_threshold(*q, settings);
}
