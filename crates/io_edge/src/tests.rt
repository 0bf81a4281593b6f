ghost use Rattle.std.specs.Prelude.{◌≡◌, ◌<◌, ◌≤◌, OnErr};
ghost use Rattle.io_edge.specs.Fault.{Rose};

use crate::{
    DiskFolder, Failed, Folder, FolderSource, Got, MemFolder, MemSink, MemSource, Sink, Source,
    StreamSink, offer,
};
use std::alloc::{AllocError, Global};
use std::io::{Read, Write};
use std::os::fd::AsRawFd;
use std::process::Abort;
use std::rt::Env;
use std::test::Fail;
use std::{env, fs, io, process};
use sv_base::Name;

// The folder of `hello` in `a` and of nothing in `b`.
fn two_files(alloc: Global, most: usize) -> Result<MemFolder, AllocError>
    requires { 0 < most }
{
    let mut files = Vec::new(alloc);
    files.push((Name::of(alloc, b"a")?, Vec::from_slice(alloc, b"hello")?))?;
    files.push((Name::of(alloc, b"b")?, Vec::new(alloc)))?;
    Ok(MemFolder {
        files,
        fail_reads: Vec::from_slice(alloc, &[3])?,
        fail_writes: Vec::from_slice(alloc, &[2])?,
        reads: 0,
        writes: 0,
        most,
        short: 0,
    })
}

// How many bytes the source gives until its end.
fn count_left<S: Source>(source: &mut S) -> Result<u64, Failed>
    ensures ground { S.same_ground source.old source.new }
    ensures failed { OnErr result (Rose (S.faults source.old) (S.faults source.new)) }
    ensures later { S.faults source.old ≤ S.faults source.new }
{
    let mut buffer = [0u8; 4];
    let mut total: u64 = 0;
    for _ in 0..u64::MAX {
        let n = source.read(&mut buffer)?;
        if n == 0 {
            break;
        }
        total = total.saturating_add(n as u64);
    }
    Ok(total)
}

// A caller that lends its folder to a source, and then goes on with it: the files are as before, and a fault is
// one of the folder's own.
fn count_twice<D: Folder>(folder: &mut D, name: &str) -> Result<u64, Failed>
    ensures content { D.content folder.new ≡ D.content folder.old }
    ensures failed { OnErr result (Rose (D.read_faults folder.old) (D.read_faults folder.new)) }
    ensures later { D.read_faults folder.old ≤ D.read_faults folder.new }
    ensures no_write { D.write_faults folder.new ≡ D.write_faults folder.old }
{
    let mut first = FolderSource {
        folder: &mut *folder,
        name,
        at: 0,
    };
    let once = count_left(&mut first)?;
    let mut second = FolderSource {
        folder,
        name,
        at: 2,
    };
    let again = count_left(&mut second)?;
    Ok(once.saturating_add(again))
}

fn reads_by_pieces(rt: &(impl AllocGlobal + Abort), most: usize, front: &[u8]) -> Result<(), Fail>
    requires { 0 < most }
{
    let mut folder = two_files(rt.alloc(), most)?;
    folder.fail_reads.clear();
    let mut buffer = [0u8; 3];
    assert_eq!(rt;
        folder.read_at("a", 1, &mut buffer),
        Ok(Got::Bytes(front.len()))
    );
    assert!(rt; buffer.starts_with(front));
    assert_eq!(rt; folder.read_at("a", 5, &mut buffer), Ok(Got::Bytes(0)));
    assert_eq!(rt;
        folder.read_at("a", u64::MAX, &mut buffer),
        Ok(Got::Bytes(0))
    );
    assert_eq!(rt; folder.read_at("b", 0, &mut buffer), Ok(Got::Bytes(0)));
    assert_eq!(rt; folder.read_at("c", 0, &mut buffer), Ok(Got::Absent));
    assert_eq!(rt; count_twice(&mut folder, "a"), Ok(8));
    assert_eq!(rt; count_twice(&mut folder, "c"), Ok(0));
    Ok(())
}

#[test]
fn folder_in_memory_reads_by_pieces(rt: HostRuntime) -> Result<(), Fail> {
    reads_by_pieces(&rt, 1, b"e")?;
    reads_by_pieces(&rt, 2, b"el")?;
    reads_by_pieces(&rt, 7, b"ell")
}

#[test]
fn folder_in_memory_fails_the_listed_calls(rt: HostRuntime) -> Result<(), Fail> {
    let mut folder = two_files(rt.alloc(), 4)?;
    let mut buffer = [0u8; 8];
    assert_eq!(rt; folder.read_at("a", 0, &mut buffer), Ok(Got::Bytes(4)));
    assert_eq!(rt; folder.write_whole("a", b"xy"), Ok(()));
    assert_eq!(rt; folder.read_at("a", 0, &mut buffer), Ok(Got::Bytes(2)));
    assert_eq!(rt; folder.write_whole("c", b"z"), Err(Failed));
    assert_eq!(rt; folder.read_at("a", 0, &mut buffer), Err(Failed));
    assert_eq!(rt; folder.read_at("c", 0, &mut buffer), Ok(Got::Absent));
    assert_eq!(rt; folder.write_whole("c", b"z"), Ok(()));
    assert_eq!(rt; folder.read_at("c", 0, &mut buffer), Ok(Got::Bytes(1)));
    assert_eq!(rt;
        (buffer[0], folder.files.len(), folder.reads, folder.writes),
        (b'z', 3, 5, 3)
    );
    Ok(())
}

#[test]
fn sink_in_memory_takes_pieces(rt: HostRuntime) -> Result<(), Fail> {
    let mut sink = MemSink {
        bytes: Vec::new(rt.alloc()),
        fail: Vec::from_slice(rt.alloc(), &[3])?,
        calls: 0,
        most: 2,
        short: 0,
    };
    assert_eq!(rt; sink.write(b""), Ok(0));
    assert_eq!(rt; offer(&mut sink, b"hello"), Err(Failed));
    assert_eq!(rt; sink.bytes.as_slice(), b"he".as_slice());
    assert_eq!(rt; offer(&mut sink, b"llo"), Ok(()));
    assert_eq!(rt; sink.bytes.as_slice(), b"hello".as_slice());
    assert_eq!(rt; sink.calls, 5);
    Ok(())
}

#[test]
fn source_in_memory_gives_pieces(rt: HostRuntime) -> Result<(), Fail> {
    let mut source = MemSource {
        bytes: Vec::from_slice(rt.alloc(), b"hello")?,
        at: 2,
        fail: Vec::from_slice(rt.alloc(), &[2])?,
        calls: 0,
        most: 2,
    };
    let mut buffer = [0u8; 4];
    assert_eq!(rt; source.read(&mut buffer), Ok(2));
    assert!(rt; buffer.starts_with(b"ll"));
    assert_eq!(rt; source.read(&mut buffer), Err(Failed));
    let fault = format!(in rt.alloc(); "{Failed}")?;
    assert_eq!(rt; fault.as_str(), "a call of the outside failed");
    assert_eq!(rt; source.read(&mut buffer), Ok(1));
    assert_eq!(rt; buffer[0], b'o');
    assert_eq!(rt; source.read(&mut buffer), Ok(0));
    Ok(())
}

// A path in the folder for files that don't stay, which no other process and no other test has.
fn own_path(rt: &(impl AllocGlobal + Env), label: &str, id: u32) -> Result<String, Fail> {
    let place = env::temp_dir(rt)?;
    Ok(format!(in rt.alloc(); "{}/io_edge_{label}_{id}", place.as_str())?)
}

#[test]
fn folder_of_the_system_reads_by_pieces(rt: HostRuntime) -> Result<(), Fail> {
    let path = own_path(&rt, "pieces", process::id(rt.process()))?;
    let name = path.as_str();
    let mut folder = DiskFolder::new(rt.alloc(), &rt);
    let mut buffer = [0u8; 3];
    assert_eq!(rt; folder.write_whole(name, b"abcdefgh"), Ok(()));
    assert_eq!(rt; folder.read_at(name, 0, &mut []), Ok(Got::Bytes(0)));
    assert_eq!(rt; folder.read_at(name, 0, &mut buffer), Ok(Got::Bytes(3)));
    assert_eq!(rt; buffer.as_slice(), b"abc".as_slice());
    assert_eq!(rt; folder.read_at(name, 3, &mut buffer), Ok(Got::Bytes(3)));
    assert_eq!(rt; buffer.as_slice(), b"def".as_slice());
    assert_eq!(rt; folder.read_at(name, 1, &mut buffer), Ok(Got::Bytes(3)));
    assert_eq!(rt; buffer.as_slice(), b"bcd".as_slice());
    assert_eq!(rt; folder.read_at(name, 7, &mut buffer), Ok(Got::Bytes(1)));
    assert_eq!(rt; buffer[0], b'h');
    assert_eq!(rt; folder.read_at(name, 8, &mut buffer), Ok(Got::Bytes(0)));
    assert_eq!(rt; folder.read_at(name, 9, &mut buffer), Ok(Got::Bytes(0)));

    // It grows, and is read on. After it is gone it is still open, until another name is read.
    let mut end = fs::OpenOptions::new().append(true).open(&rt, name)?;
    end.write_all(b"ij")?;
    assert_eq!(rt; folder.read_at(name, 9, &mut buffer), Ok(Got::Bytes(1)));
    assert_eq!(rt; buffer[0], b'j');
    fs::remove_file(&rt, name)?;
    assert_eq!(rt; folder.read_at(name, 8, &mut buffer), Ok(Got::Bytes(2)));
    assert!(rt; buffer.starts_with(b"ij"));
    assert_eq!(rt; folder.read_at("", 0, &mut buffer), Ok(Got::Absent));
    assert_eq!(rt; folder.read_at(name, 8, &mut buffer), Ok(Got::Absent));
    assert_eq!(rt; (folder.read_faults, folder.write_faults), (0, 0));
    Ok(())
}

#[test]
fn folder_of_the_system_keeps_what_was_written(rt: HostRuntime) -> Result<(), Fail> {
    let path = own_path(&rt, "written", process::id(rt.process()))?;
    let name = path.as_str();
    let mut folder = DiskFolder::new(rt.alloc(), &rt);
    let mut buffer = [0u8; 3];
    assert_eq!(rt; folder.read_at(name, 0, &mut []), Ok(Got::Absent));
    assert_eq!(rt; folder.read_at(name, 0, &mut buffer), Ok(Got::Absent));
    assert_eq!(rt; folder.write_whole(name, b"hello"), Ok(()));
    assert_eq!(rt; folder.read_at(name, 0, &mut buffer), Ok(Got::Bytes(3)));
    assert_eq!(rt; buffer.as_slice(), b"hel".as_slice());
    fs::remove_file(&rt, name)?;
    assert_eq!(rt; folder.write_whole(name, b"bytes"), Ok(()));
    assert_eq!(rt; folder.read_at(name, 3, &mut buffer), Ok(Got::Bytes(2)));
    assert!(rt; buffer.starts_with(b"es"));
    fs::remove_file(&rt, name)?;
    assert_eq!(rt; (folder.read_faults, folder.write_faults), (0, 0));

    // A folder is no file.
    assert_eq!(rt; folder.read_at("/", 0, &mut buffer), Err(Failed));
    assert_eq!(rt; folder.write_whole("/", b"hello"), Err(Failed));
    assert_eq!(rt; (folder.read_faults, folder.write_faults), (1, 1));
    Ok(())
}

#[test]
fn folder_of_the_system_reads_a_pipe_to_its_end(rt: HostRuntime) -> Result<(), Fail> {
    let (reader, mut writer) = io::pipe(&rt)?;
    writer.write_all(b"hello")?;
    drop(writer);
    let path = format!(in rt.alloc(); "/dev/fd/{}", reader.as_raw_fd())?;
    let mut folder = DiskFolder::new(rt.alloc(), &rt);
    let mut source = FolderSource {
        folder: &mut folder,
        name: path.as_str(),
        at: 0,
    };
    assert_eq!(rt; count_left(&mut source), Ok(5));
    assert_eq!(rt; source.read(&mut []), Ok(0));

    // It can't be read from another place.
    let mut buffer = [0u8; 3];
    assert_eq!(rt; folder.read_at(path.as_str(), 2, &mut buffer), Err(Failed));
    assert_eq!(rt; folder.read_faults, 1);
    Ok(())
}

#[test]
fn stream_of_the_system_takes_bytes(rt: HostRuntime) -> Result<(), Fail> {
    let (mut reader, writer) = io::pipe(&rt)?;
    let mut sink = StreamSink {
        to: writer,
        faults: 0,
    };
    assert_eq!(rt; offer(&mut sink, b"hello"), Ok(()));
    let mut buffer = [0u8; 8];
    assert_eq!(rt; reader.read(&mut buffer)?, 5);
    assert!(rt; buffer.starts_with(b"hello"));
    assert_eq!(rt; sink.faults, 0);

    // A stream that takes nothing has a fault.
    let mut full = StreamSink {
        to: &mut buffer[..0],
        faults: 0,
    };
    assert_eq!(rt; full.write(b"hello"), Err(Failed));
    assert_eq!(rt; full.faults, 1);
    Ok(())
}
