//! Logs, in memory and of the system.

use log_file::{DiskLog, LogFail, LogFile, MemLog, Opened};
use std::process::Abort;
use std::test::Fail;
use std::{env, fs, process};

// What opening gave: the bytes of the log, or a word for why there are none.
fn told(opened: &Opened) -> &[u8] {
    match opened {
        Opened::New => b"(new)",
        Opened::Held(bytes) => bytes.as_slice(),
        Opened::Busy => b"(busy)",
        Opened::TooBig => b"(too big)",
        Opened::Failed => b"(failed)",
        Opened::NoMemory => b"(no memory)",
    }
}

// Two pieces with a sync behind the first, by a caller that knows the log by its trait alone.
fn write_both<L: LogFile>(log: &mut L, first: &[u8], second: &[u8]) -> Result<(), LogFail> {
    log.append(first)?;
    log.sync()?;
    log.append(second)
}

#[test]
fn a_crash_leaves_what_was_synced(rt: HostRuntime) -> Result<(), Fail> {
    let alloc = rt.alloc();
    let mut log = MemLog::new(alloc, 100, b"", 0, Vec::new(alloc))?;
    assert_eq!(rt; told(&log.open(alloc, "a", 100)), b"(new)".as_slice());
    assert_eq!(rt; write_both(&mut log, b"one\n", b"two\n"), Ok(()));
    assert_eq!(rt; log.bytes(), b"one\ntwo\n".as_slice());
    assert_eq!(rt;
        log.after_crash(alloc, b"")?.as_slice(),
        b"one\n".as_slice()
    );
    assert_eq!(rt;
        log.after_crash(alloc, b"\0\0")?.as_slice(),
        b"one\n\0\0".as_slice()
    );
    let left = log.after_crash(alloc, b"tw")?;
    assert_eq!(rt; left.as_slice(), b"one\ntw".as_slice());
    let mut next = MemLog::new(alloc, 100, &left, 4, Vec::new(alloc))?;
    assert_eq!(rt; told(&next.open(alloc, "a", 5)), b"(too big)".as_slice());
    assert_eq!(rt; told(&next.open(alloc, "a", 6)), b"one\ntw".as_slice());
    assert_eq!(rt; next.cut(4), Ok(()));
    assert_eq!(rt; next.append(b"2\n"), Ok(()));
    assert_eq!(rt; next.bytes(), b"one\n2\n".as_slice());
    assert_eq!(rt; next.cut(2), Ok(()));
    assert_eq!(rt; next.after_crash(alloc, b"")?.as_slice(), b"on".as_slice());
    Ok(())
}

#[test]
fn a_log_in_memory_fails_as_planned(rt: HostRuntime) -> Result<(), Fail> {
    let alloc = rt.alloc();
    let mut log = MemLog::new(alloc, 7, b"", 0, vec![in alloc; 1, 5]?)?;
    assert_eq!(rt; told(&log.open(alloc, "a", 9)), b"(failed)".as_slice());
    log.set_busy(true);
    assert_eq!(rt; told(&log.open(alloc, "a", 9)), b"(busy)".as_slice());
    log.set_busy(false);
    assert_eq!(rt; told(&log.open(alloc, "a", 9)), b"(new)".as_slice());
    assert_eq!(rt; write_both(&mut log, b"one\n", b"two\n"), Err(LogFail));
    assert_eq!(rt; log.append(b"x"), Err(LogFail));
    assert_eq!(rt; told(&log.open(alloc, "a", 9)), b"one\n".as_slice());
    assert_eq!(rt; log.append(b"two\n"), Err(LogFail));
    assert_eq!(rt; log.sync(), Err(LogFail));
    assert_eq!(rt; log.bytes(), b"one\ntwo".as_slice());
    assert_eq!(rt; log.after_crash(alloc, b"")?.as_slice(), b"".as_slice());
    Ok(())
}

#[test]
fn logs_of_the_system(rt: HostRuntime) -> Result<(), Fail> {
    let alloc = rt.alloc();
    let folder = env::temp_dir(&rt)?;
    let path = format!(in alloc;
        "{}/log_file_{}",
        folder.display(),
        process::id(rt.process())
    )?;
    let mut log = DiskLog::new(&rt);
    let first = log.open(alloc, path.as_str(), 100);
    let written = write_both(&mut log, b"one\n", b"two\n");
    let busy = DiskLog::new(&rt).open(alloc, path.as_str(), 100);
    drop(log);
    let mut next = DiskLog::new(&rt);
    let held = next.open(alloc, path.as_str(), 8);
    let twice = next.open(alloc, path.as_str(), 8);
    drop(next);
    let mut last = DiskLog::new(&rt);
    let short = DiskLog::new(&rt).open(alloc, path.as_str(), 7);
    let _ = last.open(alloc, path.as_str(), 8);
    let cut = (last.cut(9), last.cut(5), last.append(b"2\n"), last.sync());
    let bytes = fs::read(&rt, path.as_str())?;
    fs::remove_file(&rt, path.as_str())?;
    assert_eq!(rt; told(&first), b"(new)".as_slice());
    assert_eq!(rt; written, Ok(()));
    assert_eq!(rt; told(&busy), b"(busy)".as_slice());
    assert_eq!(rt; told(&held), b"one\ntwo\n".as_slice());
    assert_eq!(rt; told(&twice), b"(failed)".as_slice());
    assert_eq!(rt; told(&short), b"(too big)".as_slice());
    assert_eq!(rt; cut.0.and(cut.1).and(cut.2).and(cut.3), Ok(()));
    assert_eq!(rt; bytes.as_slice(), b"one\nt2\n".as_slice());
    Ok(())
}

#[test]
fn a_log_takes_nothing_after_a_fault(rt: HostRuntime) -> Result<(), Fail> {
    let alloc = rt.alloc();
    let mut full = DiskLog::new(&rt);
    let mut nowhere = DiskLog::new(&rt);
    assert_eq!(rt; full.append(b"x"), Err(LogFail));
    assert_eq!(rt;
        told(&full.open(alloc, "/dev/full", 0)),
        b"(too big)".as_slice()
    );
    assert_eq!(rt; full.append(b"x"), Err(LogFail));
    let there = nowhere.open(alloc, "/no/such/folder/log", 9);
    assert_eq!(rt; told(&there), b"(failed)".as_slice());
    assert_eq!(rt; nowhere.sync(), Err(LogFail));
    Ok(())
}
