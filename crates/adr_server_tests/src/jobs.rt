//! Jobs of which nothing comes.
use crate::calling::{job, peers};
use crate::loopback::free;
use adr_link::Outcome;
use adr_network::Networks;
use adr_server::SocketGate;
use adr_text::Refusal;
use adr_work::{SendFault, send};
use std::test::Fail;

/// A job to an address of another scheme has no request, and one to an address at which nobody listens has failed.
#[test]
fn a_job_without_a_reply(rt: HostRuntime) -> Result<(), Fail> {
    let alloc = rt.alloc();
    let nobody = free(&rt)?;
    let peers = peers(alloc, "http://127.0.0.1:1/openadr3", Networks::any())?;
    let mut gate = SocketGate::new(rt, alloc, &peers.upstream)?;
    let target = format!(in alloc; "https://{nobody}/n")?;
    let unsendable = job(alloc, 6, target.as_str())?;
    assert!(rt;
        matches!(
            send(alloc, &mut gate, &peers, &unsendable),
            Err(SendFault::Refused(Refusal::BadShape))
        )
    );
    let target = format!(in alloc; "http://{nobody}/n")?;
    let unheard = job(alloc, 6, target.as_str())?;
    assert!(rt;
        matches!(
            send(alloc, &mut gate, &peers, &unheard),
            Ok(Outcome::Failed { forget: false })
        )
    );
    Ok(())
}
