ghost use Rattle.std.specs.Prelude.{◌≡◌, ℕ, ◌-◌, ◌^◌, ◌<◌, ◌≤◌, List, length, take, Option, IfOk, OnErr};
ghost use Rattle.io_edge.specs.Fault.{Rose};
ghost use Rattle.io_edge.specs.Told.{Added};

use crate::folder::Failed;

/// Bytes that are written one after another. A sink may tell which bytes were written. Its count of faults never
/// falls, and stops at the greatest u64.
pub trait Sink {
    // the bytes that were written, where the sink tells them
    ghost written: { Self → Option (List ℕ) };

    // how many writes have failed
    ghost faults: { Self → ℕ };

    /// Takes bytes from the front of `piece` and says how many: at least one, unless `piece` is empty.
    fn write(&mut self, piece: &[u8]) -> Result<usize, Failed>
        ensures within { IfOk result (λ n. n ≤ length piece.now) }
        ensures some { IfOk result (λ n. 0 < length piece.now → 0 < n) }
        ensures added { IfOk result (λ n. Added (written self.old) (written self.new) (take n piece.now)) }
        ensures kept { OnErr result (written self.new ≡ written self.old) }

        // `Failed` has its cause, and the count doesn't fall.
        ensures failed { OnErr result (Rose (faults self.old) (faults self.new)) }
        ensures later { faults self.old ≤ faults self.new };

    // the count stops at the greatest u64
    ghost count_stops: { (sink : Self) → faults sink ≤ 2 ^ 64 - 1 };
}
