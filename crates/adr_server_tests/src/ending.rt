//! The end of a node that has accepted all its connections.
use crate::loopback::{CREATED, POST, connect, read_reply, start};
use std::io::Write;
use std::sync::atomic::Ordering;
use std::test::Fail;
use std::thread;
use std::time::Duration;

/// The node accepts its last connection, whose request comes a byte at a time, for longer than all else that the node does
/// at its end would take. It ends when that request is answered, and no earlier.
#[test]
fn the_last_request_is_waited_for(rt: HostRuntime) -> Result<(), Fail> {
    let alloc = rt.alloc();
    let node = start(rt, alloc, 2, 1)?;
    let mut stream = connect(&rt, node.at)?;
    stream.set_nodelay(true)?;
    stream.set_read_timeout(Some(Duration::from_secs(10)))?;
    for byte in POST {
        thread::sleep(&rt, Duration::from_millis(30));
        assert!(rt;
            !node.ended.load(Ordering::SeqCst),
            "it ends while a request is read"
        );
        stream.write_all(&[*byte])?;
    }
    let created = read_reply(alloc, &mut stream)?;
    drop(stream);
    assert!(rt; node.handle.join(&rt).is_ok());
    assert!(rt; node.ended.load(Ordering::SeqCst));
    assert_eq!(rt; created.as_str(), CREATED);
    Ok(())
}
