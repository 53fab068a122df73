use crate::{
    Bytes, Failed, Files, HostFiles, HostOut, MemoryFiles, MemorySink, ReadEnd, Sink, WriteFault,
    read_all, write_all,
};
use std::test::Fail;

const TEXT: &[u8] = b"What the ship carries: rope, lamps, two maps.";

#[test]
fn bytes_are_kept_in_order(rt: HostRuntime) -> Result<(), Fail> {
    let mut bytes = Bytes::new(rt.alloc());
    assert!(rt; bytes.is_empty());
    bytes.push(b'a')?;
    bytes.extend_from_slice(b"bc")?;
    assert_eq!(rt; bytes.as_slice(), b"abc".as_slice());
    assert_eq!(rt; bytes.len(), 3);
    let copy = Bytes::from_slice(rt.alloc(), bytes.as_slice())?;
    assert_eq!(rt; copy.as_slice(), b"abc".as_slice());
    let moved = Bytes::from_vec([1, 2].to_vec(rt.alloc())?);
    assert_eq!(rt; moved.as_slice(), [1, 2].as_slice());
    Ok(())
}

#[test]
fn a_text_is_read_whole_up_to_its_limit(rt: HostRuntime) -> Result<(), Fail> {
    let mut files = MemoryFiles::new(rt.alloc(), &[], 16)?;
    files.add("cargo", TEXT)?;
    let bytes = read_all(rt.alloc(), &mut files, "cargo", 45)?;
    assert_eq!(rt; bytes.as_slice(), TEXT);
    let longer = read_all(rt.alloc(), &mut files, "cargo", 44);
    assert_eq!(rt; longer.err(), Some(ReadEnd::TooLong));
    let missing = read_all(rt.alloc(), &mut files, "crew", 45);
    assert_eq!(rt; missing.err(), Some(ReadEnd::ReadFault));
    Ok(())
}

#[test]
fn a_read_that_fails_in_mid_stream_takes_nothing(rt: HostRuntime) -> Result<(), Fail> {
    let mut files = MemoryFiles::new(rt.alloc(), &[2], 16)?;
    files.add("cargo", TEXT)?;
    let cut = read_all(rt.alloc(), &mut files, "cargo", 45);
    assert_eq!(rt; cut.err(), Some(ReadEnd::ReadFault));
    let bytes = read_all(rt.alloc(), &mut files, "cargo", 45)?;
    assert_eq!(rt; bytes.as_slice(), TEXT);
    Ok(())
}

#[test]
fn an_open_text_outlives_new_bytes_of_its_name(rt: HostRuntime) -> Result<(), Fail> {
    let mut files = MemoryFiles::new(rt.alloc(), &[], 2)?;
    files.add("log", b"old")?;
    files.add("other", b"kept")?;
    let mut buf = [0; 2];
    files.open_text("log")?;
    assert_eq!(rt; files.read(&mut buf), Ok(2));
    files.add("log", b"new")?;
    assert_eq!(rt; files.read(&mut buf), Ok(1));
    assert_eq!(rt; buf.as_slice(), b"dl".as_slice());
    let bytes = read_all(rt.alloc(), &mut files, "log", 3)?;
    assert_eq!(rt; bytes.as_slice(), b"new".as_slice());
    let bytes = read_all(rt.alloc(), &mut files, "other", 4)?;
    assert_eq!(rt; bytes.as_slice(), b"kept".as_slice());
    Ok(())
}

#[test]
fn a_sink_takes_all_bytes(rt: HostRuntime) -> Result<(), Fail> {
    let mut sink = MemorySink::new(rt.alloc(), &[], 4)?;
    write_all(&mut sink, TEXT)?;
    assert_eq!(rt; sink.written(), TEXT);
    Ok(())
}

#[test]
fn a_write_that_fails_leaves_a_front(rt: HostRuntime) -> Result<(), Fail> {
    let mut sink = MemorySink::new(rt.alloc(), &[1], 4)?;
    assert_eq!(rt; write_all(&mut sink, TEXT), Err(WriteFault));
    assert_eq!(rt; sink.written(), b"What".as_slice());
    write_all(&mut sink, b"!")?;
    assert_eq!(rt; sink.written(), b"What!".as_slice());
    Ok(())
}

#[test]
fn the_hosts_files_are_read(rt: HostRuntime) -> Result<(), Fail> {
    let mut files = HostFiles::new(&rt);
    let empty = read_all(rt.alloc(), &mut files, "/dev/null", 0)?;
    assert!(rt; empty.is_empty());
    let endless = read_all(rt.alloc(), &mut files, "/dev/zero", 10);
    assert_eq!(rt; endless.err(), Some(ReadEnd::TooLong));
    assert_eq!(rt; files.open_text("no/such/file"), Err(Failed));
    let folder = read_all(rt.alloc(), &mut files, "/", 10);
    assert_eq!(rt; folder.err(), Some(ReadEnd::ReadFault));
    Ok(())
}

#[test]
fn the_hosts_streams_are_written(rt: HostRuntime) -> Result<(), Fail> {
    let mut out = HostOut::output(&rt);
    assert_eq!(rt; out.write(b""), Ok(0));
    let mut err = HostOut::error(&rt);
    assert_eq!(rt; err.write(b""), Ok(0));
    write_all(&mut err, b"this line is on standard error\n")?;
    Ok(())
}
