ghost use Rattle.std.specs.Prelude.{◌≡◌, ◌+◌, ◌<◌, ◌≤◌, ◌↔◌, length, option_map, IfOk, IfSome, IsTrue, Some};
ghost use Rattle.std.specs.String.{string_bytes};
ghost use Rattle.io_edge.specs.Fault.{count_of};

use std::alloc::Global;
use std::io;
use std::io::{ErrorKind, Read, Seek, SeekFrom};

/// A file that is open for reading, with its name and its place.
#[derive(Drop)]
pub struct OpenFile<F> {
    // None where no memory was found for it: no name is this file's then.
    name: Option<String>,
    file: F,
    // Where the file stands, counted from 0.
    at: u64,
}

// Reads once, where no signal interrupts the read.
fn read_some(file: &mut impl Read, into: &mut [u8]) -> io::Result<usize>
    ensures { IfOk result (λ n. n ≤ length into.old) }
{
    for _ in 0..u64::MAX {
        match file.read(into) {
            Err(error) if error.kind() == ErrorKind::Interrupted => {}
            answer => return answer,
        }
    }
    Err(io::Error::from(ErrorKind::Interrupted))
}

impl<F: Read + Seek> OpenFile<F> {
    /// A file that was just opened under this name.
    pub fn new(alloc: Global, name: &str, file: F) -> OpenFile<F>
        ensures name { IfSome result.name (λ own. string_bytes own ≡ name.now) }
        ensures place { result.at ≡ 0 }
    {
        OpenFile {
            name: String::from_str(alloc, name).ok(),
            file,
            at: 0,
        }
    }

    /// Whether the file was opened under this name.
    pub fn is_named(&self, name: &str) -> bool
        ensures { IsTrue result ↔ (option_map string_bytes self.now.name ≡ Some name.now) }
    {
        match &self.name {
            Some(own) => own.as_str() == name,
            None => false,
        }
    }

    /// Puts the bytes from a place on, counted from 0, at the front of `into`, and says how many. It seeks only where
    /// the file stands at another place, so that a pipe can be read from front to end, and makes no call where `into`
    /// is empty. After an error it isn't known where the file stands, so nothing more is to be read of it.
    pub fn read_at(&mut self, at: u64, into: &mut [u8]) -> io::Result<usize>
        ensures within { IfOk result (λ n. n ≤ length into.old) }
        ensures place { IfOk result (λ n. 0 < length into.old → self.new.at ≡ count_of (at + n)) }
        ensures name { self.new.name ≡ self.old.name }
    {
        if into.is_empty() {
            return Ok(0);
        }
        if self.at != at {
            self.file.seek(SeekFrom::Start(at))?;
        }
        let n = read_some(&mut self.file, into)?;
        self.at = at.saturating_add(n as u64);
        Ok(n)
    }
}
