//! The folder and the sink in memory, and the real ones, by example.
use crate::{
    DiskFolder, Folder, FolderFault, MemFolder, MemSink, NoSink, Sink, SinkFailed, StdSink,
    write_whole,
};
use std::test::Fail;

#[test]
fn the_folder_in_memory_reads_and_fails_where_it_is_told(rt: HostRuntime) -> Result<(), Fail> {
    let alloc = rt.alloc();
    let mut folder = MemFolder::new(alloc);
    folder.put_file("f", &[1, 2])?;
    folder.put_file("f", &[9])?;
    folder.fail_calls(&[1])?;
    let first = folder.read(alloc, "f", 5)?;
    assert!(rt; matches!(&first, Some(bytes) if bytes.as_slice() == [9].as_slice()));
    assert!(rt; matches!(folder.read(alloc, "f", 5), Err(FolderFault::Failed)));
    assert!(rt; matches!(folder.read(alloc, "g", 5), Ok(None)));
    assert!(rt; matches!(folder.read(alloc, "f", 0), Err(FolderFault::TooLong)));
    Ok(())
}

#[test]
fn the_sink_in_memory_takes_and_fails_where_it_is_told(rt: HostRuntime) -> Result<(), Fail> {
    let alloc = rt.alloc();
    let mut sink = MemSink::new(alloc);
    sink.reserve(2)?;
    assert!(rt; write_whole(&mut sink, b"ab").is_ok());
    assert!(rt; sink.taken() == b"ab".as_slice());
    let mut failing = MemSink::new(alloc);
    failing.reserve(2)?;
    failing.fail_calls(&[0])?;
    assert!(rt; failing.write(b"ab") == Err(SinkFailed) && failing.taken().is_empty());
    assert!(rt; write_whole(&mut NoSink::new(), b"ab").is_ok());
    Ok(())
}

#[test]
fn the_real_folder_and_output_answer(rt: HostRuntime) -> Result<(), Fail> {
    let alloc = rt.alloc();
    let mut folder = DiskFolder::new(rt);
    assert!(rt; matches!(folder.read(alloc, "/no/such/file", 5), Ok(None)));
    assert!(rt; matches!(folder.read(alloc, "/", 5), Err(FolderFault::Failed)));
    assert!(rt;
        matches!(
            folder.read(alloc, "/proc/self/status", 5),
            Err(FolderFault::TooLong)
        )
    );
    assert!(rt; write_whole(&mut StdSink::new(rt), b"written\n").is_ok());
    Ok(())
}
