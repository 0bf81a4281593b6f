//! The bytes of a source, taken a piece at a time.

ghost use Rattle.std.specs.Prelude.{◌≡◌, ◌≤◌, [], false, true, IfOk, IfNone, OnOk, OnErr};
ghost use Rattle.io_edge.specs.Fault.{Rose};
ghost use Rattle.io_edge.specs.Told.{Took, IsAtEnd};
ghost use Rattle.stimulus_reader.specs.code.LineSource.{TakesSo, IsNextAhead, IsNextByte, EndSeen};
ghost use Rattle.stimulus_reader.specs.declared.piece.TheConstants.{PIECE};

use io_edge::{Failed, Source};
use std::alloc::{AllocError, Global};
use std::marker::Model;

/// The most bytes that are taken at once.
pub const PIECE: usize = 4_096;

/// The bytes of a source that were taken and are not used yet, and whether the source has come to its end.
#[derive(Debug, Drop)]
pub struct Piece {
    // a buffer of `PIECE` bytes, whose bytes from `start` up to `end` are not used
    bytes: Vec<u8>,
    start: usize,
    end: usize,
    over: bool,
}

impl Model for Piece {
    ghost use Rattle.stimulus_reader.specs.code.LineSource.{Ahead};

    ghost Value = { Ahead };

    ghost use Rattle.stimulus_reader.specs.code.Fields.{ahead_of, IsPiece};

    ghost view = { ahead_of };

    ghost invariant = { IsPiece };
}

impl Piece {
    /// No bytes of a source, of which nothing was read.
    pub fn new(alloc: Global) -> Result<Piece, AllocError>
        ensures { IfOk result (λ piece. piece ≡ record { bytes = []; over = false }) }
    {
        Ok(Piece {
            bytes: vec![in alloc; 0; PIECE]?,
            start: 0,
            end: 0,
            over: false,
        })
    }

    // Takes the next piece of a source.
    fn fill<S: Source>(&mut self, source: &mut S) -> Result<(), Failed>
        requires used { self.old.bytes ≡ [] }
        requires before_end { self.old.over ≡ false }
        ensures took { OnOk result (Took (S.left source.old) (S.left source.new) self.new.bytes) }
        ensures end { OnOk result (self.new.over ≡ true → (self.new.bytes ≡ [])
            × IsAtEnd (S.left source.new)) }
        ensures some { OnOk result (self.new.bytes ≡ [] → self.new.over ≡ true) }
        ensures kept { OnErr result (S.left source.new ≡ S.left source.old) }
        ensures same { OnErr result (self.new ≡ self.old) }
        ensures cause { OnErr result (Rose (S.faults source.old) (S.faults source.new)) }
        ensures ground { S.same_ground source.old source.new }
        ensures later { S.faults source.old ≤ S.faults source.new }
    {
        self.start = 0;
        self.end = 0;
        self.end = source.read(self.bytes.as_mut_slice())?;
        self.over = self.end == 0;
        Ok(())
    }

    // The next of the bytes that were taken.
    fn byte_ahead(&mut self) -> Option<u8>
        ensures { IsNextAhead result self.old self.new }
    {
        if self.start == self.end {
            return None;
        }
        let byte = self.bytes[self.start];
        self.start += 1;
        Some(byte)
    }

    /// The next byte, unless the source is at its end. Takes a piece only where no byte is left of the last, and none after
    /// the end.
    pub fn next_byte<S: Source>(&mut self, source: &mut S) -> Result<Option<u8>, Failed>
        ensures next { IfOk result
            (λ byte. TakesSo (S.left source.old) (S.left source.new) self.old self.new
            (IsNextByte byte)) }
        ensures at_end { IfOk result
            (λ byte. IfNone byte (self.new ≡ record { bytes = []; over = true })) }
        ensures end { EndSeen self.old (S.left source.old) → EndSeen self.new (S.left source.new) }
        ensures reads_on { OnErr result (self.old.over ≡ false) }
        ensures kept { OnErr result (S.left source.new ≡ S.left source.old) }
        ensures same { OnErr result (self.new ≡ self.old) }
        ensures cause { OnErr result (Rose (S.faults source.old) (S.faults source.new)) }
        ensures ground { S.same_ground source.old source.new }
        ensures later { S.faults source.old ≤ S.faults source.new }
    {
        if let Some(byte) = self.byte_ahead() {
            return Ok(Some(byte));
        }
        if !self.over {
            self.fill(source)?;
        }
        Ok(self.byte_ahead())
    }
}
