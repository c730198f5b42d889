//! Files and sinks, in memory and of the system.

use super::is;
use stab_files::{DiskFiles, Files, Loaded, MemFiles, MemSink, OutSink, Sink, SinkFail};
use std::alloc::{AllocError, Global};
use std::io::{self, ErrorKind, Write};
use std::process::Abort;
use std::test::Fail;
use std::{env, fs, process};

// Two pieces, by a caller that knows the sink by its trait alone.
fn put_both<K: Sink>(sink: &mut K, first: &[u8], second: &[u8]) -> Result<(), SinkFail> {
    sink.put(first)?;
    sink.put(second)
}

// Whether a file of this name is there, by a caller that knows the files by their trait alone.
fn is_there<F: Files>(files: &mut F, alloc: Global, name: &str) -> Option<bool> {
    match files.load(alloc, name, 1_000) {
        Loaded::Bytes(_) | Loaded::TooBig => Some(true),
        Loaded::Missing => Some(false),
        Loaded::Failed | Loaded::NoMemory => None,
    }
}

// What a load gave: the bytes of the file, or a word for why there are none.
fn told(loaded: &Loaded) -> &[u8] {
    match loaded {
        Loaded::Bytes(bytes) => bytes.as_slice(),
        Loaded::Missing => b"(missing)",
        Loaded::TooBig => b"(too big)",
        Loaded::Failed => b"(failed)",
        Loaded::NoMemory => b"(no memory)",
    }
}

fn expect<F: Files>(
    rt: &impl Abort,
    files: &mut F,
    alloc: Global,
    (name, limit): (&str, u64),
    wanted: &[u8],
) {
    let loaded = files.load(alloc, name, limit);
    is(rt, &(name, limit, told(&loaded)), &(name, limit, wanted));
}

// A file named `a`, a later one of that name, and an empty one without a name; two loads fail.
fn three_files(alloc: Global) -> Result<MemFiles, AllocError> {
    let table: [(&str, &[u8]); 3] = [("a", b"abc"), ("a", b"later"), ("", b"")];
    let mut held = Vec::new(alloc);
    for (name, contents) in table {
        let name = String::from_str(alloc, name)?;
        held.push((name, Vec::from_slice(alloc, contents)?))?;
    }
    Ok(MemFiles::new(held, vec![in alloc; 3, 6]?))
}

const LOADS: [((&str, u64), &[u8]); 5] = [
    (("a", 3), b"abc"),
    (("a", 2), b"(too big)"),
    (("a", 3), b"(failed)"),
    (("b", 3), b"(missing)"),
    (("", 0), b""),
];

const THERE: [(&str, Option<bool>); 3] = [("a", None), ("a", Some(true)), ("c", Some(false))];

fn expect_loads(rt: &impl Abort, files: &mut MemFiles, alloc: Global) {
    for (load, wanted) in LOADS {
        expect(rt, files, alloc, load, wanted);
    }
}

// The first row of which something else is said.
fn first_wrong(files: &mut MemFiles, alloc: Global) -> Option<usize> {
    for (row, (name, wanted)) in THERE.iter().enumerate() {
        if is_there(files, alloc, name) != *wanted {
            return Some(row);
        }
    }
    None
}

#[test]
fn loads_from_memory(rt: HostRuntime) -> Result<(), Fail> {
    let mut files = three_files(rt.alloc())?;
    expect_loads(&rt, &mut files, rt.alloc());
    is(&rt, &first_wrong(&mut files, rt.alloc()), &None);
    Ok(())
}

#[test]
fn puts_into_memory(rt: HostRuntime) -> Result<(), Fail> {
    let mut sink = MemSink::new(rt.alloc(), 4, vec![in rt.alloc(); 2]?)?;
    let empty = sink.bytes() == b"".as_slice();
    assert!(rt; empty && is_filled(&mut sink));
    Ok(())
}

// Whether two puts and then three of four bytes fill the sink, and no more.
fn is_filled(sink: &mut MemSink) -> bool {
    put_both(sink, b"3\n", b"4") == Err(SinkFail::Failed)
        && sink.bytes() == b"3\n".as_slice()
        && sink.put(b"456") == Err(SinkFail::Failed)
        && put_both(sink, b"45", b"") == Ok(())
        && sink.put(b"6") == Err(SinkFail::Failed)
        && sink.bytes() == b"3\n45".as_slice()
}

// A file of the system for one test, by the test's name.
fn path_for(rt: &HostRuntime, test: &str) -> Result<String, Fail> {
    let folder = env::temp_dir(rt)?;
    Ok(format!(in rt.alloc();
        "{}/stab_files_{test}_{}",
        folder.display(),
        process::id(rt.process())
    )?)
}

// This many bytes, of which neighbours and the starts of two chunks differ.
fn varied(alloc: Global, count: usize) -> Result<Vec<u8>, AllocError> {
    let mut bytes = Vec::with_capacity(alloc, count)?;
    for place in 0..count {
        bytes.push((place % 251) as u8)?;
    }
    Ok(bytes)
}

// Whether the system's files give this for a name and a limit.
fn is_on_disk(rt: &HostRuntime, (name, limit): (&str, u64), wanted: &[u8]) -> Result<bool, Fail> {
    let mut files = DiskFiles::new(rt.clone()?);
    let loaded = files.load(rt.alloc(), name, limit);
    Ok(told(&loaded) == wanted)
}

fn expect_on_disk(rt: &HostRuntime, load: (&str, u64), wanted: &[u8]) -> Result<(), Fail> {
    if is_on_disk(rt, load, wanted)? {
        return Ok(());
    }
    Err(Fail::from(format!(in rt.alloc(); "{load:?}")?))
}

// These bytes in a file are loaded where the limit is their number, and not where it is one less.
fn expect_whole(rt: &HostRuntime, path: &str, contents: &[u8]) -> Result<(), Fail> {
    let limit = contents.len() as u64;
    fs::write(rt, path, contents)?;
    expect_on_disk(rt, (path, limit), contents)?;
    expect_on_disk(rt, (path, limit.saturating_sub(1)), b"(too big)")?;
    fs::remove_file(rt, path)?;
    Ok(())
}

fn expect_whole_of(rt: &HostRuntime, path: &str, size: usize) -> Result<(), Fail> {
    let contents = varied(rt.alloc(), size)?;
    expect_whole(rt, path, &contents)
}

fn expect_each_whole(rt: &HostRuntime, path: &str) -> Result<(), Fail> {
    for size in [1, 65_537, 1_048_576, 1_048_577] {
        expect_whole_of(rt, path, size)?;
    }
    expect_on_disk(rt, (path, 10_000), b"(missing)")
}

#[test]
fn whole_files_up_to_the_limit(rt: HostRuntime) -> Result<(), Fail> {
    let path = path_for(&rt, "load")?;
    expect_each_whole(&rt, path.as_str())
}

// A file is loaded by its own name, and by none that has a blank more or no letter.
fn expect_names(
    rt: &HostRuntime,
    path: &str,
    blank_after: &str,
    blank_before: &str,
) -> Result<(), Fail> {
    fs::write(rt, path, b"without".as_slice())?;
    expect_on_disk(rt, (blank_after, 10), b"(missing)")?;
    expect_on_disk(rt, (blank_before, 10), b"(missing)")?;
    expect_on_disk(rt, ("", 10), b"(missing)")?;
    fs::write(rt, blank_after, b"with".as_slice())?;
    expect_on_disk(rt, (blank_after, 10), b"with")?;
    fs::remove_file(rt, path)?;
    fs::remove_file(rt, blank_after)?;
    Ok(())
}

#[test]
fn names_are_taken_as_they_are(rt: HostRuntime) -> Result<(), Fail> {
    let path = path_for(&rt, "name")?;
    let after = format!(in rt.alloc(); "{path} ")?;
    let before = format!(in rt.alloc(); " {path}")?;
    expect_names(&rt, path.as_str(), after.as_str(), before.as_str())
}

#[test]
fn what_is_no_file_fails(rt: HostRuntime) -> Result<(), Fail> {
    expect_on_disk(&rt, ("/dev/zero", 10_000), b"(too big)")?;
    expect_on_disk(&rt, ("/", 10_000), b"(failed)")?;
    expect_on_disk(&rt, ("/dev/null/through", 10_000), b"(failed)")?;
    let long = "n".repeat(rt.alloc(), 5_000)?;
    expect_on_disk(&rt, (long.as_str(), 10_000), b"(failed)")
}

#[test]
fn a_device_is_there(rt: HostRuntime) -> Result<(), Fail> {
    let mut files = DiskFiles::new(rt.clone()?);
    let there = is_there(&mut files, rt.alloc(), "/dev/null");
    is(&rt, &there, &Some(true));
    Ok(())
}

// What two puts into a new file were told, and what stands in the file before it is let go.
fn put_into(rt: &HostRuntime, path: &str) -> Result<(Result<(), SinkFail>, Vec<u8>), Fail> {
    let mut sink = OutSink::new(fs::create(rt, path)?);
    let put = put_both(&mut sink, b"3\n", b"ended\n");
    Ok((put, fs::read(rt, path)?))
}

fn are_both_put(rt: &HostRuntime, path: &str) -> Result<bool, Fail> {
    let (put, written) = put_into(rt, path)?;
    Ok(put == Ok(()) && written.as_slice() == b"3\nended\n".as_slice())
}

#[test]
fn puts_into_a_file(rt: HostRuntime) -> Result<(), Fail> {
    let path = path_for(&rt, "put")?;
    let put = are_both_put(&rt, path.as_str())?;
    fs::remove_file(&rt, path.as_str())?;
    assert!(rt; put);
    Ok(())
}

#[test]
fn puts_into_a_full_file_fail(rt: HostRuntime) -> Result<(), Fail> {
    let full = fs::File::options().write(true).open(&rt, "/dev/full")?;
    is(&rt, &OutSink::new(full).put(b"3\n"), &Err(SinkFail::Failed));
    Ok(())
}

#[test]
fn tells_what_a_vector_holds(rt: HostRuntime) -> Result<(), Fail> {
    let mut bytes = Vec::new(rt.alloc());
    let mut sink = OutSink::telling(&mut bytes);
    assert_eq!(rt; put_both(&mut sink, b"3\n", b"ended\n"), Ok(()));
    drop(sink);
    assert_eq!(rt; bytes.as_slice(), b"3\nended\n".as_slice());
    Ok(())
}

// A writer that is interrupted a number of times, then takes one byte a time up to a number, and then none.
#[derive(Drop)]
struct Halting {
    interruptions: u32,
    taken: Vec<u8>,
    room: usize,
}

impl Write for Halting {
    fn write(&mut self, buf: &[u8]) -> io::Result<usize> {
        if self.interruptions > 0 {
            self.interruptions -= 1;
            return Err(io::Error::from(ErrorKind::Interrupted));
        }
        let count = buf
            .len()
            .min(self.room.saturating_sub(self.taken.len()))
            .min(1);
        self.taken.extend_from_slice(&buf[..count])?;
        Ok(count)
    }

    fn flush(&mut self) -> io::Result<()> {
        Ok(())
    }
}

// What puts of a piece, of two bytes and of none are told.
fn put_three(writer: &mut Halting, piece: &[u8]) -> [Result<(), SinkFail>; 3] {
    let mut sink = OutSink::new(writer);
    [sink.put(piece), sink.put(b"de"), sink.put(b"")]
}

// Whether the first of the two bytes was taken behind the piece, and no more.
fn is_piece_and_first(taken: &[u8], piece: &[u8]) -> bool {
    match taken.split_last() {
        Some((last, whole)) => *last == b'd' && whole == piece,
        None => false,
    }
}

#[test]
fn puts_byte_by_byte(rt: HostRuntime) -> Result<(), Fail> {
    let piece = varied(rt.alloc(), 100_000)?;
    let mut writer = Halting {
        interruptions: 1_000,
        taken: Vec::new(rt.alloc()),
        room: 100_001,
    };
    let told = put_three(&mut writer, &piece);
    let taken = is_piece_and_first(&writer.taken, &piece);
    is(
        &rt,
        &(told, taken),
        &([Ok(()), Err(SinkFail::Failed), Ok(())], true),
    );
    Ok(())
}

// A writer that keeps what it took until it is flushed, which fails from the second time on.
#[derive(Drop)]
struct Holding {
    held: Vec<u8>,
    gone_out: Vec<u8>,
    flushed: bool,
}

impl Write for Holding {
    fn write(&mut self, buf: &[u8]) -> io::Result<usize> {
        self.held.extend_from_slice(buf)?;
        Ok(buf.len())
    }

    fn flush(&mut self) -> io::Result<()> {
        if self.flushed {
            return Err(io::Error::from(ErrorKind::Other));
        }
        self.flushed = true;
        self.gone_out.append(&mut self.held)?;
        Ok(())
    }
}

#[test]
fn puts_are_flushed(rt: HostRuntime) -> Result<(), Fail> {
    let mut writer = Holding {
        held: Vec::new(rt.alloc()),
        gone_out: Vec::new(rt.alloc()),
        flushed: false,
    };
    let told = put_lines(&mut writer);
    let gone_out = writer.gone_out.as_slice() == b"3\n".as_slice();
    is(
        &rt,
        &(told, gone_out),
        &([Ok(()), Err(SinkFail::Failed)], true),
    );
    Ok(())
}

fn put_lines(writer: &mut Holding) -> [Result<(), SinkFail>; 2] {
    let mut sink = OutSink::new(writer);
    [sink.put(b"3\n"), sink.put(b"4\n")]
}
