//! The lines of a stimulus, read from a source.

ghost use Rattle.std.specs.Prelude.{◌≡◌, ◌+◌, ◌<◌, ◌≤◌, ◌++◌, [], true, false, length, IfOk, OnErr};
ghost use Rattle.std.specs.Vec.{vec_capacity};
ghost use Rattle.io_edge.specs.Fault.{Rose};
ghost use Rattle.stimulus_reader.specs.code.LineSource.{TakesSo, EndSeen, IsOpenLine, IsTurn, IsFound, FoundWithin};
ghost use Rattle.stimulus_reader.specs.declared.found.TheConstants.{LINE_LIMIT, FILE_LIMIT};

use crate::piece::Piece;
use crate::reason::Reason;
use io_edge::{Failed, Source};

/// The most bytes of a line before its LF.
pub const LINE_LIMIT: usize = 65_536;

/// The most bytes of a file.
pub const FILE_LIMIT: u64 = 1_073_741_824;

/// What stands at a place of a file.
#[derive(Clone, Copy, Debug, PartialEq, Eq)]
pub enum Found {
    /// The end of the file.
    End,
    /// A line, which an LF ends or the end of the file does.
    Line { ended: bool },
    /// A line that passes a limit.
    Long(Reason),
}

/// What one byte more makes of a line.
#[derive(Clone, Copy, Debug, PartialEq, Eq)]
enum Turn {
    More(u8),
    Done(Found),
}

// What the next byte makes of a line of so many bytes, which begins at this place of the file.
fn next_turn(at: u64, len: usize, byte: Option<u8>) -> Turn
    requires line { len ≤ LINE_LIMIT }
    requires file { at + len ≤ FILE_LIMIT }
    ensures { IsTurn at len byte result }
{
    match byte {
        None if len == 0 => Turn::Done(Found::End),
        None => Turn::Done(Found::Line { ended: false }),
        Some(byte) => {
            if byte != b'\n' && len == LINE_LIMIT {
                Turn::Done(Found::Long(Reason::LineTooLong))
            } else if at + len as u64 == FILE_LIMIT {
                Turn::Done(Found::Long(Reason::FileTooLong))
            } else if byte == b'\n' {
                Turn::Done(Found::Line { ended: true })
            } else {
                Turn::More(byte)
            }
        }
    }
}

/// Reads on in the line that begins at this place of the file, without its LF, behind the bytes of it that `line` has.
/// A read that failed leaves in `line` what was read.
pub fn take_line<S: Source>(
    at: u64,
    line: &mut Vec<u8>,
    piece: &mut Piece,
    source: &mut S,
) -> Result<Found, Failed>
    requires begun { IsOpenLine at line.old.items }
    requires room { LINE_LIMIT ≤ vec_capacity line.old }
    ensures found { IfOk result
        (λ found. TakesSo (S.left source.old) (S.left source.new) piece.old piece.new
        (λ bytes rest. IsFound at line.new.items found (line.old.items ++ bytes) rest)) }
    ensures at_end { IfOk result
        (λ found. found ≡ Found.End → (line.new.items ≡ [])
        × (piece.new ≡ record { bytes = []; over = true })) }
    ensures within { IfOk result (FoundWithin at line.new.items) }
    ensures kept { OnErr result (TakesSo (S.left source.old) (S.left source.new) piece.old piece.new
        (λ bytes rest. line.old.items ++ bytes ≡ line.new.items ++ rest)) }
    ensures reads_on { OnErr result (piece.new.over ≡ false) }
    ensures end { EndSeen piece.old (S.left source.old) → EndSeen piece.new (S.left source.new) }
    ensures front { IsOpenLine at line.new.items }
    ensures capacity { vec_capacity line.new ≡ vec_capacity line.old }
    ensures cause { OnErr result (Rose (S.faults source.old) (S.faults source.new)) }
    ensures ground { S.same_ground source.old source.new }
    ensures later { S.faults source.old ≤ S.faults source.new }
{
    'bytes: loop {
        match next_turn(at, line.len(), piece.next_byte(source)?) {
            Turn::More(byte) => line.push_reserved(byte),
            Turn::Done(found) => return Ok(found),
        }
    }
}

#[cfg(test)]
mod tests {
    use super::*;
    use crate::reason::Reason::{FileTooLong, LineTooLong};

    #[test]
    fn limits_come_by_their_first_byte(rt: HostRuntime) {
        for (at, len, byte, wanted) in [
            (1_073_741_823, 0, b'd', Turn::More(b'd')),
            (
                1_073_741_823,
                0,
                b'\n',
                Turn::Done(Found::Line { ended: true }),
            ),
            (1_073_741_824, 0, b'd', Turn::Done(Found::Long(FileTooLong))),
            (
                1_073_741_824,
                0,
                b'\n',
                Turn::Done(Found::Long(FileTooLong)),
            ),
            (
                1_073_676_288,
                65_536,
                b'd',
                Turn::Done(Found::Long(LineTooLong)),
            ),
            (
                1_073_676_288,
                65_536,
                b'\n',
                Turn::Done(Found::Long(FileTooLong)),
            ),
            (
                1_073_676_289,
                65_535,
                b'd',
                Turn::Done(Found::Long(FileTooLong)),
            ),
            (0, 65_536, b'\n', Turn::Done(Found::Line { ended: true })),
            (0, 65_536, b'\r', Turn::Done(Found::Long(LineTooLong))),
        ] {
            assert_eq!(rt; next_turn(at, len, Some(byte)), wanted, "{at} {len}");
        }
        assert_eq!(rt; next_turn(1_073_741_824, 0, None), Turn::Done(Found::End));
    }
}
