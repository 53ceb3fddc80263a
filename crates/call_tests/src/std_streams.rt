//! The streams of std.
use outside_io::{ReadAllFault, Sink, Source, StdSink, StdSource, read_all, write_all};
use std::io::{self, ErrorKind, Read};
use std::test::Fail;

const TEXT: &[u8] = b"12345678";

/// A reader that never has anything but an error.
#[derive(Drop)]
struct Broken;

impl Read for Broken {
    fn read(&mut self, _into: &mut [u8]) -> io::Result<usize> {
        Err(io::Error::from(ErrorKind::Other))
    }
}

#[test]
fn a_reader_of_std(rt: HostRuntime) -> Result<(), Fail> {
    let alloc = rt.alloc();
    let mut source = StdSource::new(TEXT);
    assert!(rt; read_all(alloc, &mut source, 8).is_ok_and(|b| b.as_slice() == TEXT));
    let mut broken = StdSource::new(Broken);
    assert_eq!(rt;
        read_all(alloc, &mut broken, 8).err(),
        Some(ReadAllFault::SourceFault)
    );
    assert!(rt; broken.read(&mut [0; 1]).is_err());
    Ok(())
}

#[test]
fn a_writer_of_std(rt: HostRuntime) -> Result<(), Fail> {
    let alloc = rt.alloc();
    let mut sink = StdSink::new(Vec::new(alloc));
    assert!(rt; write_all(&mut sink, TEXT).is_ok());
    // A slice with room for three bytes takes them, and then answers that it took none.
    let mut room = [0u8; 3];
    let mut sink = StdSink::new(room.as_mut_slice());
    assert_eq!(rt; sink.write(TEXT).ok(), Some(3));
    assert_eq!(rt; sink.write(b"").ok(), Some(0));
    assert!(rt; sink.write(TEXT).is_err());
    assert!(rt; write_all(&mut sink, TEXT).is_err());
    Ok(())
}
