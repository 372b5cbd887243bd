// The queue of reached nodes.
//   Queue         the reached nodes in order, and how many of them are taken
//   pop           the next node is taken
//   enqueue       the nodes that an event reached, put into the queue
ghost use Rattle.std.specs.Prelude.{◌≡◌, length};
ghost use Rattle.search.specs.Lent.{queue_of};
ghost use Rattle.search.specs.Queue.{Queued, queued_below, Popped, Enqueued};

use crate::steps::Labels;
use counting::slice_vec::SliceVec;

// The reached nodes, in the order in which they were reached; the first `taken` of them are taken.
#[derive(Drop)]
pub struct Queue<'a> {
    pub reached: SliceVec<'a, usize>,
    pub taken: usize,
}

impl Queue<'_> {
    // The next node that was not taken.
    pub fn pop(&mut self) -> Option<usize>
        ensures { Popped (queue_of self.old) (queue_of self.new) result }
    {
        let x = *self.reached.as_slice().get(self.taken)?;
        self.taken += 1;
        Some(x)
    }

    // The nodes reached by the event `clock` go to the end.
    pub fn enqueue(&mut self, labels: &Labels<'_>, clock: usize)
        requires queue_len { length self.old.reached.slice.now ≡ length labels.now.birth.now }
        requires queued { Queued (queued_below labels.now.birth.now clock 0) (queue_of self.old) }
        ensures { Enqueued (queued_below labels.now.birth.now clock (length labels.now.birth.now)) (queue_of self.old) (queue_of self.new) }
    {
        // invariant: proofs/Queues Enqueuing; falls: nodes left
        for (v, b) in labels.birth.iter().enumerate() {
            if *b == clock {
                self.reached.push(v);
            }
        }
    }
}
