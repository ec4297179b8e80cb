//! Writes that end before all is written.
use adr_server::{Paced, Term};
use std::io;
use std::io::{Read, Write};
use std::net::{TcpListener, TcpStream};
use std::test::Fail;
use std::time::Duration;

/// More than the buffers of both sockets hold, as long as nobody reads.
const MANY: usize = 8_000_000;

/// How many reads there are at most.
const MOST_READS: u32 = 100_000;

/// How many bytes come up to the end of the stream.
fn count_all(stream: &mut TcpStream) -> io::Result<usize> {
    let mut part = [0u8; 65_536];
    let mut count = 0usize;
    for _ in 0..MOST_READS {
        let came = stream.read(&mut part)?;
        if came == 0 {
            break;
        }
        count = count.saturating_add(came);
    }
    Ok(count)
}

/// Nobody reads, so that a write waits as long as it may, and ends with a part of its bytes. It tells how many went, and so
/// many come.
#[test]
fn a_write_tells_how_much_went(rt: HostRuntime) -> Result<(), Fail> {
    let alloc = rt.alloc();
    let listener = TcpListener::bind(&rt, "127.0.0.1:0")?;
    let mut reader = TcpStream::connect(&rt, listener.local_addr()?)?;
    reader.set_read_timeout(Some(Duration::from_secs(10)))?;
    let (writer, _) = listener.accept()?;
    let bytes = vec![in alloc; 0u8; MANY]?;
    let mut paced = Paced {
        time: &rt,
        stream: &writer,
        term: Term::new(Duration::from_millis(500), Duration::from_secs(10)),
    };
    let told = paced.write(bytes.as_slice())?;
    drop(paced);
    drop(writer);
    let came = count_all(&mut reader)?;
    assert!(rt; 0 < came && came < MANY, "a part goes: {came}");
    assert_eq!(rt; told, came);
    Ok(())
}
