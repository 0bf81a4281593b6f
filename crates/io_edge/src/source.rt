ghost use Rattle.std.specs.Prelude.{◌≡◌, ℕ, ◌-◌, ◌^◌, ◌≤◌, List, length, Option, IfOk, OnErr};
ghost use Rattle.io_edge.specs.Fault.{Rose};
ghost use Rattle.io_edge.specs.Told.{TookNext};

use crate::folder::Failed;

/// Bytes that are read from front to end. A source may tell which bytes are left. Its count of faults never
/// falls, and stops at the greatest u64.
pub trait Source {
    // the bytes that are left, where the source tells them
    ghost left: { Self → Option (List ℕ) };

    // how many reads have failed
    ghost faults: { Self → ℕ };

    // the second source stands over the same things as the first: what a source reads from, which no read changes
    ghost same_ground: { Self → Self → Type 0 };

    /// Puts the next bytes at the front of `into` and says how many: at least one, unless the source is at its end
    /// or `into` is empty. The rest of `into`, and all of it where the read failed, may hold anything.
    fn read(&mut self, into: &mut [u8]) -> Result<usize, Failed>
        ensures within { IfOk result (λ n. n ≤ length into.old) }
        ensures next { IfOk result (TookNext (left self.old) (left self.new) into.new) }
        ensures kept { OnErr result (left self.new ≡ left self.old) }
        ensures ground { same_ground self.old self.new }

        // `Failed` has its cause, and the count doesn't fall.
        ensures failed { OnErr result (Rose (faults self.old) (faults self.new)) }
        ensures later { faults self.old ≤ faults self.new };

    // the count stops at the greatest u64
    ghost count_stops: { (source : Self) → faults source ≤ 2 ^ 64 - 1 };

    // where nothing was read, the ground is the same
    ghost ground_at_once: { (source : Self) → same_ground source source };

    // the ground is the same after one read and another
    ghost ground_after: { (a b c : Self) → same_ground a b → same_ground b c → same_ground a c };
}
