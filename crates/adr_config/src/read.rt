//! A configuration, from the bytes of its file.
ghost use Rattle.std.specs.Prelude.{◌≡◌, ◌⊎◌, codes, IfOk, IfErr};
ghost use Rattle.serde_json.specs.View.{view};
ghost use Rattle.adr_text.specs.Fields.{member_of, required, optional};
ghost use Rattle.adr_text.specs.declared.refusal.Refusal.TheVariants.{OutOfMemory, BadShape};
ghost use Rattle.adr_config.specs.Callbacks.{FindsNone};
ghost use Rattle.adr_config.specs.Members.{limit_in};
ghost use Rattle.adr_config.specs.Grants.{roles_in};
ghost use Rattle.adr_config.specs.declared.config.Config.{Config as Configuration};
ghost use Rattle.adr_config.specs.Configs.{upstream_in, settings_in, ending_in, config_at, Listens, SaysAt, Says, IsConfig};
ghost use Rattle.adr_config.specs.Tellings.{Tells};

use crate::callbacks::callbacks;
use crate::config::Config;
use crate::deletion::{MassDeletion, deletion_said};
use crate::fault::ConfigFault;
use crate::grants::roles;
use crate::level::level_said;
use crate::limits::limits;
use crate::members::{limit, needed_limit};
use crate::place::Place;
use crate::texts::{maybe_text, needed_text};
use crate::wrong::Why;
use adr_http::Roles;
use adr_link::Upstream;
use adr_network::Networks;
use adr_state::{Limit, Limits, Settings};
use adr_subscription::{FreeText, callback_address};
use adr_text::{Fault, Refusal, member, read_value};
use log::LevelFilter;
use serde_json::Value;
use std::alloc::Global;
use std::net::SocketAddr;

/// Which of the two is wrong: the utility's address, or else the token that it is shown.
fn no_upstream(alloc: Global, address: &str) -> ConfigFault {
    match callback_address(alloc, address) {
        Err(Refusal::OutOfMemory) => ConfigFault::OutOfMemory,
        Err(_) => ConfigFault::Wrong(Place::Upstream.wrong(Why::NoUpstream)),
        Ok(_) => ConfigFault::Wrong(Place::UpstreamToken.wrong(Why::NoToken)),
    }
}

/// The utility's address, and the token that it is shown.
#[tactic(auto, unfolding(crate::specs::Configs::upstream_in))]
fn upstream(alloc: Global, value: &Value) -> Result<Upstream, ConfigFault>
    ensures { Tells (λ u. u) result (upstream_in (view value.now)) }
{
    let address: FreeText = needed_text(alloc, value, "upstream", Place::Upstream, Why::NoText)?;
    let token: Option<FreeText> = maybe_text(
        alloc,
        value,
        "upstreamToken",
        Place::UpstreamToken,
        Why::NoText,
    )?;
    match Upstream::new(alloc, address.as_str(), token.as_ref().map(|t| t.as_str())) {
        Ok(upstream) => Ok(upstream),
        Err(Refusal::OutOfMemory) => Err(ConfigFault::OutOfMemory),
        Err(_) => Err(no_upstream(alloc, address.as_str())),
    }
}

/// The name under which it reports, and its limits.
#[tactic(auto, unfolding(crate::specs::Configs::settings_in))]
fn settings(alloc: Global, value: &Value) -> Result<Settings, ConfigFault>
    ensures { Tells (λ s. s) result (settings_in (view value.now)) }
{
    let client = needed_text(alloc, value, "clientName", Place::ClientName, Why::NoName)?;
    let limits = match member(value, "limits") {
        Some(said) => limits(said)?,
        None => Limits::largest(),
    };
    Ok(Settings { client, limits })
}

fn tokens(alloc: Global, value: &Value) -> Result<Roles, ConfigFault>
    ensures { Tells (λ r. r) result (required (member_of (codes "tokens") (view value.now)) roles_in) }
{
    match member(value, "tokens") {
        Some(said) => roles(alloc, said),
        None => Err(ConfigFault::Wrong(Place::Tokens.wrong(Why::Missing))),
    }
}

fn stop_after(value: &Value) -> Result<Option<Limit<4_294_967_295>>, ConfigFault>
    ensures { Tells (λ n. n) result (optional (member_of (codes "stopAfter") (view value.now)) (limit_in 4_294_967_295)) }
{
    match member(value, "stopAfter") {
        Some(said) => Ok(Some(limit(said, Place::StopAfter)?)),
        None => Ok(None),
    }
}

/// After how many connections it stops, what it does of many deletions, and how much is told.
#[tactic(auto, unfolding(crate::specs::Configs::ending_in))]
fn ending(
    value: &Value,
) -> Result<(Option<Limit<4_294_967_295>>, MassDeletion, LevelFilter), ConfigFault>
    ensures { Tells (λ s. (s.0, s.1, s.2)) result (ending_in (view value.now)) }
{
    let stop_after = stop_after(value)?;
    let deletion = deletion_said(value)?.unwrap_or(MassDeletion::Confirm);
    let log = level_said(value)?.unwrap_or(LevelFilter::Off);
    Ok((stop_after, deletion, log))
}

/// The configuration of a node that listens there, and lets addresses in those networks be called.
#[tactic(auto, unfolding(crate::specs::Configs::config_at))]
fn config_at(
    alloc: Global,
    listen: SocketAddr,
    callbacks: Networks,
    value: &Value,
) -> Result<Config, ConfigFault>
    ensures { Tells (λ c. c) result (config_at listen callbacks (view value.now)) }
{
    let upstream = upstream(alloc, value)?;
    let settings = settings(alloc, value)?;
    let poll = needed_limit(value, "poll", Place::Poll)?;
    let workers = needed_limit(value, "workers", Place::Workers)?;
    let store = maybe_text(alloc, value, "store", Place::Store, Why::NoText)?;
    let roles = tokens(alloc, value)?;
    let (stop_after, mass_deletion, log) = ending(value)?;
    Ok(Config {
        listen,
        upstream,
        callbacks,
        settings,
        store,
        poll,
        mass_deletion,
        workers,
        roles,
        stop_after,
        log,
    })
}

/// Where it listens: an IP address, a colon and a port.
fn listen(alloc: Global, value: &Value) -> Result<SocketAddr, ConfigFault>
    ensures ok { IfOk result (Listens (view value.now)) }
    ensures err { IfErr result (λ e. FindsNone e (Listens (view value.now))) }
{
    let text: FreeText = needed_text(alloc, value, "listen", Place::Listen, Why::NoText)?;
    match text.as_str().parse() {
        Ok(listen) => Ok(listen),
        Err(_) => Err(ConfigFault::Wrong(Place::Listen.wrong(Why::NoListen))),
    }
}

/// The configuration of a node that listens there.
#[tactic(auto, using(crate::proofs::Calling::says_at, crate::proofs::Calling::says_none_at))]
fn config_listening(alloc: Global, listen: SocketAddr, value: &Value) -> Result<Config, ConfigFault>
    ensures ok { IfOk result (SaysAt listen (view value.now)) }
    ensures err { IfErr result (λ e. FindsNone e (SaysAt listen (view value.now))) }
{
    match callbacks(alloc, value) {
        Ok(callbacks) => config_at(alloc, listen, callbacks, value),
        Err(fault) => Err(fault),
    }
}

/// The configuration that an object says.
#[tactic(auto, using(crate::proofs::Listening::says_by))]
fn config(alloc: Global, value: &Value) -> Result<Config, ConfigFault>
    ensures ok { IfOk result (Says (view value.now)) }
    ensures err { IfErr result (λ e. FindsNone e (Says (view value.now))) }
{
    match listen(alloc, value) {
        Ok(listen) => config_listening(alloc, listen, value),
        Err(fault) => Err(fault),
    }
}

/// The configuration that a JSON value says: one that is no object says none.
fn config_in(alloc: Global, value: &Value) -> Result<Config, ConfigFault>
    ensures ok { IfOk result (Says (view value.now)) }
    ensures err { IfErr result (λ e. FindsNone e (Says (view value.now))) }
{
    if !value.is_object() {
        return Err(ConfigFault::NoObject);
    }
    config(alloc, value)
}

/// Where bytes that are no JSON stop to be some.
fn no_json(alloc: Global, bytes: &[u8]) -> ConfigFault {
    match Value::from_slice(alloc, bytes) {
        Err(slip) if slip.is_memory() => ConfigFault::OutOfMemory,
        Err(slip) => {
            let place = Place::Text(slip.line(), slip.column());
            ConfigFault::Wrong(place.wrong(Why::NoJson))
        }
        Ok(_) => ConfigFault::NoObject,
    }
}

impl Config {
    /// The configuration that the bytes of a file are, or what is wrong in them.
    #[tactic(auto, using(crate::proofs::Listening::no_value))]
    pub fn read_or_tell(alloc: Global, bytes: &[u8]) -> Result<Config, ConfigFault>
        ensures ok { IfOk result (IsConfig bytes.now) }
        ensures err { IfErr result (λ e. FindsNone e (IsConfig bytes.now)) }
    {
        match read_value(alloc, bytes) {
            Ok(value) => config_in(alloc, &value),
            Err(Fault::OutOfMemory) => Err(ConfigFault::OutOfMemory),
            Err(_) => Err(no_json(alloc, bytes)),
        }
    }

    /// The configuration that the bytes of a file are; `BadShape` where they are none.
    pub fn read(alloc: Global, bytes: &[u8]) -> Result<Config, Refusal>
        ensures ok { IfOk result (IsConfig bytes.now) }
        ensures err { IfErr result (λ e. (e ≡ OutOfMemory) ⊎ ((e ≡ BadShape) × ((config : Configuration) → ¬ (IsConfig bytes.now config)))) }
    {
        match Config::read_or_tell(alloc, bytes) {
            Ok(config) => Ok(config),
            Err(ConfigFault::OutOfMemory) => Err(Refusal::OutOfMemory),
            Err(_) => Err(Refusal::BadShape),
        }
    }
}
