use bytes::Bytes;
use std::test::Fail;
use vn_ring::FrameRing;

#[test]
fn frames_keep_their_order(rt: HostRuntime) -> Result<(), Fail> {
    // the frame that is put, or None for a take; the frame that comes back; how many are queued
    let rows = [
        (None, None, 0),
        (Some("first"), None, 1),
        (Some("second"), None, 2),
        (Some("third"), Some("third"), 2),
        (None, Some("first"), 1),
        (Some("third"), None, 2),
        (None, Some("second"), 1),
        (None, Some("third"), 0),
        (None, None, 0),
        (Some("fourth"), None, 1),
    ];
    let mut ring = FrameRing::new(rt.alloc(), 2).ok().ok_or("no memory")?;
    for (put, want, queued) in rows {
        let back = match put {
            Some(text) => ring.try_put(Bytes::from_static(text.as_bytes())).err(),
            None => ring.take(),
        };
        assert_eq!(rt; back.is_some(), want.is_some());
        if let (Some(frame), Some(text)) = (back, want) {
            assert_eq!(rt; frame.as_slice(), text.as_bytes());
        }
        assert_eq!(rt; ring.len(), queued);
    }
    ring.clear();
    assert_eq!(rt; ring.len(), 0);
    assert!(rt; ring.take().is_none());
    Ok(())
}
