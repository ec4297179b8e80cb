//! Peers that fall silent, before their request or in the middle of it.
use crate::loopback::{CUT, connect, read_reply, start};
use std::alloc::Global;
use std::io;
use std::io::Write;
use std::net::{Net, SocketAddr, TcpListener, TcpStream};
use std::test::Fail;
use std::time::{Clock, Duration, Instant};

/// What a peer sends before it falls silent: nothing, a part of a line, a part of a head, a part of a body.
const SENT: [&[u8]; 4] = [
    b"",
    b"GET /ve",
    b"GET /vens HTTP/1.1\r\nHost: x\r\nAuthorization: Bearer t0\r\n",
    CUT,
];

/// A peer that is silent, and since when.
#[derive(Drop)]
struct Silent {
    stream: TcpStream,
    since: Instant,
}

/// Connects, sends this, and falls silent.
fn silent_behind<R>(rt: &R, at: SocketAddr, sent: &[u8]) -> io::Result<Silent>
where
    R: Net<Listener = TcpListener, Stream = TcpStream> + Clock,
{
    let mut stream = connect(rt, at)?;
    let since = Instant::now(rt)?;
    stream.set_read_timeout(Some(Duration::from_secs(10)))?;
    stream.write_all(sent)?;
    Ok(Silent { stream, since })
}

/// What such a peer is sent until the node closes, and after how long that is.
fn let_go<R: Clock>(rt: &R, alloc: Global, peer: Silent) -> io::Result<(String, Duration)> {
    let Silent { mut stream, since } = peer;
    let reply = read_reply(alloc, &mut stream)?;
    Ok((reply, since.elapsed(rt)?))
}

/// Each has a worker of its own, and each is let go without a reply: not at once, and not late.
#[test]
fn each_silent_peer_is_let_go(rt: HostRuntime) -> Result<(), Fail> {
    let alloc = rt.alloc();
    let node = start(rt, alloc, 4, 4)?;
    let mut peers = Vec::new(alloc);
    for sent in SENT {
        peers.push(silent_behind(&rt, node.at, sent)?)?;
    }
    for peer in peers {
        let (reply, after) = let_go(&rt, alloc, peer)?;
        assert!(rt;
            reply.is_empty(),
            "there is no reply to a part of a request"
        );
        assert!(rt; Duration::from_secs(3) <= after && after <= Duration::from_secs(10));
    }
    assert!(rt; node.handle.join(&rt).is_ok());
    Ok(())
}
