ghost use Rattle.std.specs.Prelude.{◌≡◌, ◌≤◌, length, IfOk, IfSome, None};
ghost use Rattle.std.specs.String.{string_bytes};
ghost use Rattle.io_edge.specs.Fault.{count_of, count_of-stops};
ghost use Rattle.io_edge.specs.File.{IsAtMost};

use crate::counting::counted;
use crate::folder::{Failed, Folder, Got};
use crate::open_file::OpenFile;
use std::alloc::Global;
use std::io::ErrorKind;
use std::rt::Files;
use std::{fs, io};

/// The files of the system. A name is a path, relative to the current directory. It tells no content.
///
/// The file that was read last is kept open, until another name is read, its own name is written or a read fails; a
/// later read goes on in it, and seeks only where it is to begin elsewhere. So a file that grows is read on; one that
/// was replaced is still read as it was opened; and what can't be sought, as a pipe, is read whole where it is read
/// from front to end, with no other name between. What was read of a pipe is gone: opened anew, it begins with what
/// is left.
#[derive(Drop)]
pub struct DiskFolder<'r, R: Files> {
    alloc: Global,
    rt: &'r R,
    kept: Option<OpenFile<R::File>>,
    /// How many reads have failed, up to the greatest u64.
    pub read_faults: u64,
    /// How many writes have failed, up to the greatest u64.
    pub write_faults: u64,
}

impl<'r, R: Files> DiskFolder<'r, R> {
    /// A folder that keeps no file yet. Memory is taken for the name of the file that is kept; where none is found,
    /// each read opens its file anew.
    pub fn new(alloc: Global, rt: &'r R) -> DiskFolder<'r, R>
        ensures no_read { result.read_faults ≡ 0 }
        ensures no_write { result.write_faults ≡ 0 }
    {
        DiskFolder {
            alloc,
            rt,
            kept: None,
            read_faults: 0,
            write_faults: 0,
        }
    }
}

// The kept file where it has this name, else one opened anew; none where the name isn't there.
fn open_named<R: Files>(
    alloc: Global,
    rt: &R,
    kept: Option<OpenFile<R::File>>,
    name: &str,
) -> io::Result<Option<OpenFile<R::File>>>
    ensures { IfOk result (λ found. IfSome found (λ file. IfSome file.name (λ own. string_bytes own ≡ name.now))) }
{
    if let Some(file) = kept {
        if file.is_named(name) {
            return Ok(Some(file));
        }
    }
    match fs::open(rt, name) {
        Ok(file) => Ok(Some(OpenFile::new(alloc, name, file))),
        Err(error) if error.kind() == ErrorKind::NotFound => Ok(None),
        Err(error) => Err(error),
    }
}

// Nothing stays kept where the read fails, since it isn't known where the file stands then.
fn read_file<R: Files>(
    alloc: Global,
    rt: &R,
    kept: &mut Option<OpenFile<R::File>>,
    name: &str,
    at: u64,
    into: &mut [u8],
) -> io::Result<Got>
    ensures { IfOk result (λ got. IsAtMost got (length into.old)) }
{
    let Some(mut file) = open_named(alloc, rt, kept.take(), name)? else {
        return Ok(Got::Absent);
    };
    let n = file.read_at(at, into)?;
    *kept = Some(file);
    Ok(Got::Bytes(n))
}

impl<R: Files> Folder for DiskFolder<'_, R> {
    ghost content = { λ _. None };

    ghost read_faults = { λ folder. count_of folder.read_faults };

    ghost write_faults = { λ folder. count_of folder.write_faults };

    ghost files_short = { λ _. tt };

    ghost counts_stop = { λ folder. (count_of-stops _, count_of-stops _) };

    fn read_at(&mut self, name: &str, at: u64, into: &mut [u8]) -> Result<Got, Failed> {
        let answer = read_file(self.alloc, self.rt, &mut self.kept, name, at, into);
        counted(answer, &mut self.read_faults)
    }

    fn write_whole(&mut self, name: &str, bytes: &[u8]) -> Result<(), Failed> {
        if matches!(&self.kept, Some(file) if file.is_named(name)) {
            self.kept = None;
        }
        counted(fs::write(self.rt, name, bytes), &mut self.write_faults)
    }
}
