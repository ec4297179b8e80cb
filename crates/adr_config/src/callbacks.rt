//! The networks in which addresses may be called.
ghost use Rattle.std.specs.Prelude.{map, Some, IfOk, IfErr};
ghost use Rattle.serde_json.specs.View.{view};
ghost use Rattle.adr_network.specs.Texts.{IsNetworkText};
ghost use Rattle.adr_config.specs.Callbacks.{FindsNone, IsNetworkIn, AreNetworks, AreNetworksIn, CallsBack};
ghost use Rattle.adr_config.specs.Configs.{Calls};

use crate::fault::ConfigFault;
use crate::place::Place;
use crate::wrong::Why;
use adr_network::{Network, Networks};
use adr_text::{Rows, list, member, text};
use serde_json::Value;
use std::alloc::Global;

fn network_of(text: &str, place: Place) -> Result<Network, ConfigFault>
    ensures ok { IfOk result (IsNetworkText text.now) }
    ensures err { IfErr result (λ e. FindsNone e (IsNetworkText text.now)) }
{
    match Network::read(text) {
        Some(network) => Ok(network),
        None => Err(ConfigFault::Wrong(place.wrong(Why::NoNetwork))),
    }
}

/// The network that the value at that place writes.
fn network(value: &Value, place: Place) -> Result<Network, ConfigFault>
    ensures ok { IfOk result (IsNetworkIn (view value.now)) }
    ensures err { IfErr result (λ e. FindsNone e (IsNetworkIn (view value.now))) }
{
    match text(value) {
        Ok(text) => network_of(text, place),
        Err(fault) => Err(place.wrong(Why::NoText).told(fault)),
    }
}

/// The networks that values write, each in its place.
fn networks(alloc: Global, values: &[Value]) -> Result<Rows<Network>, ConfigFault>
    ensures ok { IfOk result (AreNetworks (map view values.now)) }
    ensures err { IfErr result (λ e. FindsNone e (AreNetworks (map view values.now))) }
{
    let mut networks = Rows::new(alloc);
    let mut number = 0usize;
    for value in values {
        match network(value, Place::Callback(number)) {
            Ok(network) => networks.push(network)?,
            Err(fault) => return Err(fault),
        }
        number = number.saturating_add(1);
    }
    Ok(networks)
}

/// The networks that a list writes.
fn networks_in(alloc: Global, value: &Value) -> Result<Rows<Network>, ConfigFault>
    ensures ok { IfOk result (AreNetworksIn (view value.now)) }
    ensures err { IfErr result (λ e. FindsNone e (AreNetworksIn (view value.now))) }
{
    match list(value) {
        Ok(values) => networks(alloc, values),
        Err(fault) => Err(Place::Callbacks.wrong(Why::NoList).told(fault)),
    }
}

/// The networks of a list in which addresses may be called.
fn called(alloc: Global, value: &Value) -> Result<Networks, ConfigFault>
    ensures ok { IfOk result (CallsBack (Some (view value.now))) }
    ensures err { IfErr result (λ e. FindsNone e (CallsBack (Some (view value.now)))) }
{
    match networks_in(alloc, value) {
        Ok(networks) => Ok(Networks::of(networks)),
        Err(fault) => Err(fault),
    }
}

/// The networks in which a configuration lets addresses be called: without a list any.
pub(crate) fn callbacks(alloc: Global, value: &Value) -> Result<Networks, ConfigFault>
    ensures ok { IfOk result (Calls (view value.now)) }
    ensures err { IfErr result (λ e. FindsNone e (Calls (view value.now))) }
{
    match member(value, "callbacks") {
        Some(said) => called(alloc, said),
        None => Ok(Networks::any()),
    }
}
