//! What real files do, and that logs of calls are kept.

use hy_base::{
    DiskShelf, File, FileError, FileList, M, MemShelf, MemSink, NumList, RecordedShelf,
    RecordedSink, Text, read_all, write_pieces,
};
use std::alloc::Global;
use std::fs;
use std::test::Fail;

fn text_of(alloc: Global, bytes: &[u8]) -> M<Text> {
    let mut text = Text::new(alloc);
    text.extend(bytes)?;
    Ok(text)
}

/// A shelf with a file `a` of one read.
fn shelf_of(alloc: Global) -> M<MemShelf> {
    let mut files = FileList::new(alloc);
    files.push(File {
        name: text_of(alloc, b"a")?,
        bytes: text_of(alloc, b"first")?,
    })?;
    Ok(MemShelf::new(files, NumList::new(alloc)))
}

/// How many calls are logged of a file that is read, and one that can't be opened.
fn logged_calls(alloc: Global) -> M<Option<usize>> {
    let mut shelf = RecordedShelf::new(alloc, shelf_of(alloc)?);
    let found = read_all(alloc, &mut shelf, "a").is_ok();
    let missing = read_all(alloc, &mut shelf, "c").is_err();
    match shelf.log() {
        Some(log) if found && missing => Ok(Some(log.len())),
        _ => Ok(None),
    }
}

/// How many puts are logged of three pieces, one of which takes two puts and one none.
fn logged_puts(alloc: Global) -> M<Option<usize>> {
    let sink = MemSink::new(alloc, 8, 2, NumList::new(alloc))?;
    let mut sink = RecordedSink::new(alloc, sink);
    let written = write_pieces(&mut sink, &[b"abc", b"", b"de"]).is_ok();
    match sink.log() {
        Some(log) if written => Ok(Some(log.len())),
        _ => Ok(None),
    }
}

#[test]
fn logs_are_kept(rt: HostRuntime) {
    assert!(rt; matches!(logged_calls(rt.alloc()), Ok(Some(4))));
    assert!(rt; matches!(logged_puts(rt.alloc()), Ok(Some(3))));
}

/// The bytes of a real file, or why they can't be read.
fn read_from(rt: &HostRuntime, name: &str) -> Result<Text, FileError> {
    read_all(rt.alloc(), &mut DiskShelf::new(rt), name)
}

/// Whether a real file of this name is read as it was written, after which it is removed.
fn reads_back(rt: &HostRuntime, name: &str, bytes: &[u8]) -> Result<bool, Fail> {
    fs::write(rt, name, bytes)?;
    let text = read_from(rt, name)?;
    fs::remove_file(rt, name)?;
    Ok(text.as_slice() == bytes)
}

#[test]
fn reads_real_files(rt: HostRuntime) -> Result<(), Fail> {
    let name = "hy_base_reads_real_files";
    assert!(rt; reads_back(&rt, name, &[b'x'; 100_000])?);
    assert!(rt; matches!(read_from(&rt, name), Err(FileError::OpenFailed)));
    assert!(rt; matches!(read_from(&rt, "."), Err(FileError::ReadFailed)));
    Ok(())
}
