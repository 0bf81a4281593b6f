ghost use Rattle.std.specs.Prelude.{◌≡◌, ◌+◌, ◌<◌, ◌≤◌, ◌↔◌, ◌==◌, if◌then◌else◌, length, is_ok, Some, IsErr, IfOk, OnOk, OnErr};
ghost use Rattle.std.specs.List.{position};
ghost use Rattle.std.specs.FinMap.{insert};
ghost use Rattle.std.specs.Cmp.Lexicographic.{pointwise};
ghost use Rattle.io_edge.specs.File.{IsAtMost, IsAnswer, Wrote, ChangedOnly};
ghost use Rattle.io_edge.specs.Fault.{Rose, IsListed, count_of, count_of-stops, listed_faults, next_call};
ghost use Rattle.io_edge.specs.Entries.{files_of, all_short};

use crate::calls::is_to_fail;
use crate::copying::copy_next;
use crate::folder::{Failed, Folder, Got};
use std::alloc::AllocError;
use sv_base::Name;

/// A folder in memory; where a name stands twice in `files`, its first entry counts. Reads and writes are each
/// numbered from 1, and those in `fail_reads` and `fail_writes` fail. A read gives at most `most` bytes. A write
/// for which no memory is found fails too, and raises `short`.
#[derive(Drop)]
pub struct MemFolder {
    pub files: Vec<(Name, Vec<u8>)>,
    pub fail_reads: Vec<u64>,
    pub fail_writes: Vec<u64>,
    pub reads: u64,
    pub writes: u64,
    pub most: usize,
    pub short: u64,
    pub ghost gives_some: { 0 < most },
}

// The place of the name's first entry.
fn place_of(files: &[(Name, Vec<u8>)], name: &[u8]) -> Option<usize>
    ensures { result ≡ position (λ file. pointwise ◌==◌ name.now file.0) files.now }
{
    files.iter().position(|file| name == file.0.bytes())
}

// Makes these bytes the whole of the name.
fn put(files: &mut Vec<(Name, Vec<u8>)>, name: &[u8], bytes: &[u8]) -> Result<(), AllocError>
    ensures ok { OnOk result (files_of files.new.items ≡ insert (files_of files.old.items) name.now bytes.now) }
    ensures err { OnErr result (files.new.items ≡ files.old.items) }
{
    let alloc = *files.allocator();
    let copy = Vec::from_slice(alloc, bytes)?;
    match place_of(files, name) {
        Some(place) => files[place].1 = copy,
        None => files.push((Name::of(alloc, name)?, copy))?,
    }
    Ok(())
}

impl Folder for MemFolder {
    ghost content = { λ folder. Some (files_of folder.files.items) };

    ghost read_faults = { λ folder. count_of (listed_faults folder.fail_reads.items folder.reads) };

    ghost write_faults = { λ folder. count_of
        (listed_faults folder.fail_writes.items folder.writes + folder.short) };

    ghost files_short = { λ folder. all_short folder.files.items };

    ghost counts_stop = { λ folder. (count_of-stops _, count_of-stops _) };

    fn read_at(&mut self, name: &str, at: u64, into: &mut [u8]) -> Result<Got, Failed>
        ensures within { IfOk result (λ got. IsAtMost got (length into.old)) }
        ensures answer { IfOk result (λ got. IsAnswer
            (⟦<MemFolder as Folder>⟧.content self.old) name.now at into.new got) }
        ensures unchanged { ⟦<MemFolder as Folder>⟧.content self.new
            ≡ ⟦<MemFolder as Folder>⟧.content self.old }
        ensures failed { OnErr result (Rose
            (⟦<MemFolder as Folder>⟧.read_faults self.old) (⟦<MemFolder as Folder>⟧.read_faults self.new)) }
        ensures later { ⟦<MemFolder as Folder>⟧.read_faults self.old ≤ ⟦<MemFolder as Folder>⟧.read_faults self.new }
        ensures no_write { ⟦<MemFolder as Folder>⟧.write_faults self.new
            ≡ ⟦<MemFolder as Folder>⟧.write_faults self.old }

        // Exactly the listed reads fail, and each read counts.
        ensures listed { IsErr result ↔ IsListed self.old.fail_reads.items self.old.reads }
        ensures most { IfOk result (λ got. IsAtMost got self.old.most) }
        ensures after { self.new ≡ record self.old { reads = next_call self.old.reads } }
    {
        if is_to_fail(&mut self.reads, &self.fail_reads) {
            return Err(Failed);
        }
        match place_of(&self.files, name.as_bytes()) {
            None => Ok(Got::Absent),
            Some(place) => {
                let (_, bytes) = &self.files[place];
                Ok(Got::Bytes(copy_next(bytes, at as usize, self.most, into)))
            }
        }
    }

    fn write_whole(&mut self, name: &str, bytes: &[u8]) -> Result<(), Failed>
        ensures written { OnOk result (Wrote (⟦<MemFolder as Folder>⟧.content self.old)
            (⟦<MemFolder as Folder>⟧.content self.new) name.now bytes.now) }
        ensures others { OnErr result (ChangedOnly
            (⟦<MemFolder as Folder>⟧.content self.old) (⟦<MemFolder as Folder>⟧.content self.new) name.now) }
        ensures failed { OnErr result (Rose
            (⟦<MemFolder as Folder>⟧.write_faults self.old) (⟦<MemFolder as Folder>⟧.write_faults self.new)) }
        ensures later { ⟦<MemFolder as Folder>⟧.write_faults self.old ≤ ⟦<MemFolder as Folder>⟧.write_faults self.new }
        ensures no_read { ⟦<MemFolder as Folder>⟧.read_faults self.new
            ≡ ⟦<MemFolder as Folder>⟧.read_faults self.old }

        // The listed writes fail, and else only those for which no memory is found. Each write counts, and one that
        // fails changes no file.
        ensures listed { IsListed self.old.fail_writes.items self.old.writes
            → IsErr result × (self.new.short ≡ self.old.short) }
        ensures memory { ¬ IsListed self.old.fail_writes.items self.old.writes
            → self.new.short ≡ (if is_ok result then self.old.short else count_of (self.old.short + 1)) }
        ensures kept { OnErr result (self.new.files.items ≡ self.old.files.items) }
        ensures after { self.new ≡ record self.old { files = self.new.files; writes = next_call self.old.writes; short = self.new.short } }
    {
        if is_to_fail(&mut self.writes, &self.fail_writes) {
            return Err(Failed);
        }
        match put(&mut self.files, name.as_bytes(), bytes) {
            Ok(()) => Ok(()),
            Err(_) => {
                self.short = self.short.saturating_add(1);
                Err(Failed)
            }
        }
    }
}
