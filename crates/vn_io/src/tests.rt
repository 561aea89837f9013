use super::*;
use std::test::Fail;

#[test]
fn octets_are_moved_whole(rt: HostRuntime) -> Result<(), Fail> {
    let alloc = rt.alloc();
    // the octets, the greatest piece, the call that fails (none has number 0), what is read where
    // the limit is five octets, what is written
    let rows = [
        ("hello", 1, 0, "hello", "hello"),
        ("hello!", 2, 0, "too long", "hello!"),
        ("hello", 64, 3, "hello", "hello"),
        ("hello", 1, 3, "failed", "he"),
        ("hello", 64, 1, "failed", ""),
    ];
    for (octets, piece, failing, read, written) in rows {
        assert!(rt; piece > 0);
        let given = Vec::from_slice(alloc, octets.as_bytes())?;
        let mut source = MemSource::new(given, piece, Vec::from_slice(alloc, &[failing])?);
        let text = match read_to_end(alloc, &mut source, 5) {
            Ok(octets) => octets,
            Err(ReadError::Failed) => Vec::from_slice(alloc, b"failed")?,
            Err(ReadError::TooLong) => Vec::from_slice(alloc, b"too long")?,
            Err(ReadError::NoMemory) => Vec::from_slice(alloc, b"no memory")?,
        };
        assert_eq!(rt; text.as_slice(), read.as_bytes());

        let mut sink = MemSink::new(alloc, piece, Vec::from_slice(alloc, &[failing])?);
        let is_whole = write_all(&mut sink, octets.as_bytes()).is_ok();
        assert_eq!(rt; is_whole, octets == written);
        assert_eq!(rt; sink.written(), written.as_bytes());
    }

    let mut calm = CalmSource::new(Vec::from_slice(alloc, b"calm")?, 3);
    assert_eq!(rt;
        read_to_end(alloc, &mut calm, 4).map_or(0, |octets| octets.len()),
        4
    );
    assert!(rt; write_all(&mut CalmSink::new(), b"calm").is_ok());
    Ok(())
}
