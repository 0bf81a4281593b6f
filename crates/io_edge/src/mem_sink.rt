ghost use Rattle.std.specs.Prelude.{◌≡◌, ◌+◌, ◌<◌, ◌≤◌, if◌then◌else◌, length, take, is_ok, Some, IsErr, IfOk, OnErr};
ghost use Rattle.io_edge.specs.Told.{Added};
ghost use Rattle.io_edge.specs.Fault.{Rose, IsListed, count_of, count_of-stops, listed_faults, next_call};

use crate::calls::is_to_fail;
use crate::folder::Failed;
use crate::sink::Sink;

/// A sink in memory. Its calls are numbered from 1, and those in `fail` fail. A call takes at most `most` bytes.
/// One for which no memory is found fails too, and raises `short`.
#[derive(Drop)]
pub struct MemSink {
    pub bytes: Vec<u8>,
    pub fail: Vec<u64>,
    pub calls: u64,
    pub most: usize,
    pub short: u64,
    pub ghost takes_some: { 0 < most },
}

impl Sink for MemSink {
    ghost written = { λ sink. Some sink.bytes.items };

    ghost faults = { λ sink. count_of (listed_faults sink.fail.items sink.calls + sink.short) };

    ghost count_stops = { λ sink. count_of-stops _ };

    fn write(&mut self, piece: &[u8]) -> Result<usize, Failed>
        ensures within { IfOk result (λ n. n ≤ length piece.now) }
        ensures some { IfOk result (λ n. 0 < length piece.now → 0 < n) }
        ensures added { IfOk result (λ n. Added
            (⟦<MemSink as Sink>⟧.written self.old) (⟦<MemSink as Sink>⟧.written self.new) (take n piece.now)) }
        ensures kept { OnErr result (⟦<MemSink as Sink>⟧.written self.new
            ≡ ⟦<MemSink as Sink>⟧.written self.old) }
        ensures failed { OnErr result (Rose
            (⟦<MemSink as Sink>⟧.faults self.old) (⟦<MemSink as Sink>⟧.faults self.new)) }
        ensures later { ⟦<MemSink as Sink>⟧.faults self.old ≤ ⟦<MemSink as Sink>⟧.faults self.new }

        // The listed calls fail, and else only those for which no memory is found. Each call counts.
        ensures listed { IsListed self.old.fail.items self.old.calls
            → IsErr result × (self.new.short ≡ self.old.short) }
        ensures memory { ¬ IsListed self.old.fail.items self.old.calls
            → self.new.short ≡ (if is_ok result then self.old.short else count_of (self.old.short + 1)) }
        ensures most { IfOk result (λ n. n ≤ self.old.most) }
        ensures after { self.new ≡ record self.old { bytes = self.new.bytes; calls = next_call self.old.calls; short = self.new.short } }
    {
        if is_to_fail(&mut self.calls, &self.fail) {
            return Err(Failed);
        }
        let n = piece.len().min(self.most);
        match self.bytes.extend_from_slice(&piece[..n]) {
            Ok(()) => Ok(n),
            Err(_) => {
                self.short = self.short.saturating_add(1);
                Err(Failed)
            }
        }
    }
}
