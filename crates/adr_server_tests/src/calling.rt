//! Whom the node calls and jobs for them, for the tests.
use adr_delivery::{Job, JobMethod};
use adr_link::Upstream;
use adr_network::{Network, Networks};
use adr_objects::Number;
use adr_subscription::FreeText;
use adr_text::Rows;
use adr_work::Peers;
use std::alloc::Global;
use std::test::Fail;

/// The networks in which addresses may be called: that one, or none.
pub fn networks(alloc: Global, network: Option<&str>) -> Result<Networks, Fail> {
    let mut only = Rows::new(alloc);
    if let Some(network) = network {
        only.push(Network::read(network).ok_or("a network")?)?;
    }
    Ok(Networks::of(only))
}

/// Whom the node calls: the utility at an address, and addresses in these networks.
pub fn peers(alloc: Global, upstream: &str, callbacks: Networks) -> Result<Peers, Fail> {
    Ok(Peers {
        upstream: Upstream::new(alloc, upstream, None)?,
        callbacks,
    })
}

/// A job for a subscription, or for the utility, which is 0.
pub fn job(alloc: Global, destination: u64, target: &str) -> Result<Job, Fail> {
    Ok(Job {
        entry: Number::new(7),
        lease: 1,
        destination: Number::new(destination),
        method: JobMethod::Post,
        target: FreeText::new(alloc, target)?,
        token: None,
        body: FreeText::new(alloc, "{}")?,
    })
}
