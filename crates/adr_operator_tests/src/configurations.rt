//! What no clause says: that an example is read, that each wrong member is refused and told, by which words the members go,
//! and what has no effect.
use adr_config::{Config, MassDeletion, log_of, oddities};
use adr_http::Roles;
use adr_machine::Role;
use adr_network::Networks;
use adr_state::{Limits, Settings};
use adr_text::Refusal;
use log::LevelFilter;
use std::alloc::{AllocError, Global};
use std::net::{IpAddr, SocketAddr};
use std::test::Fail;

/// The members of an example, each with its value.
const MEMBERS: [(&str, &str); 13] = [
    ("listen", "\"127.0.0.1:8080\""),
    ("upstream", "\"http://127.0.0.1:8081/openadr3\""),
    ("upstreamToken", "\"up\""),
    ("callbacks", "[\"10.20.0.0/16\",\"::1/128\"]"),
    ("clientName", "\"aggregator\""),
    ("poll", "3600"),
    ("workers", "16"),
    ("store", "\"node.db\""),
    (
        "tokens",
        "[{\"token\":\"t0\",\"role\":\"operator\"},{\"token\":\"u0\",\"role\":\"utility\"},{\"token\":\"v0\",\"role\":\"ven\",\"venID\":\"v1\"}]",
    ),
    ("limits", "{\"vens\":7,\"pending\":100000}"),
    ("stopAfter", "4294967295"),
    ("massDeletion", "\"at once\""),
    ("log", "\"info\""),
];

/// Members that have to be there.
const NEEDED: [&str; 6] = [
    "listen",
    "upstream",
    "clientName",
    "poll",
    "workers",
    "tokens",
];

/// Members, what is told of them, and the values with which they are refused so.
const WRONG: [(&str, &str, &[&str]); 35] = [
    ("listen", "listen: not a text", &["8080"]),
    ("listen", "listen: missing", &["null"]),
    (
        "listen",
        "listen: not an IP address, a colon and a port",
        &[
            "\"\"",
            "\"127.0.0.1\"",
            "\"127.0.0.1:\"",
            "\"127.0.0.1:70000\"",
            "\"localhost:8080\"",
            "\"127.0.0.1:8080 \"",
        ],
    ),
    ("upstream", "upstream: not a text", &["80"]),
    (
        "upstream",
        "upstream: not an http address of an IP address or localhost",
        &[
            "\"\"",
            "\"127.0.0.1:8081\"",
            "\"https://127.0.0.1:8081/openadr3\"",
            "\"http://127.0.0.1:70000/openadr3\"",
        ],
    ),
    ("upstreamToken", "upstreamToken: not a text", &["1"]),
    (
        "upstreamToken",
        "upstreamToken: not 1 to 1024 characters from ! to ~",
        &["\"\"", "\"a b\""],
    ),
    ("clientName", "clientName: not a text", &["1"]),
    ("clientName", "clientName: not 1 to 128 bytes", &["\"\""]),
    (
        "poll",
        "poll: not a whole number from 1 to 3600",
        &["\"1\"", "0", "-1", "3601", "1.5", "true"],
    ),
    (
        "workers",
        "workers: not a whole number from 1 to 16",
        &["\"1\"", "0", "17", "-1"],
    ),
    ("tokens", "tokens: not a list", &["{}", "\"t0\""]),
    ("tokens", "tokens[0]: not an object", &["[\"t0\"]"]),
    (
        "tokens",
        "tokens[0].token: missing",
        &["[{\"role\":\"operator\"}]"],
    ),
    (
        "tokens",
        "tokens[0].role: missing",
        &["[{\"token\":\"t0\"}]"],
    ),
    (
        "tokens",
        "tokens[0].token: not a text",
        &["[{\"token\":7,\"role\":\"operator\"}]"],
    ),
    (
        "tokens",
        "tokens[0].token: not 1 to 1024 characters from ! to ~",
        &[
            "[{\"token\":\"\",\"role\":\"operator\"}]",
            "[{\"token\":\"t 0\",\"role\":\"operator\"}]",
        ],
    ),
    (
        "tokens",
        "tokens[0].role: not operator, utility or ven",
        &[
            "[{\"token\":\"t0\",\"role\":\"Operator\"}]",
            "[{\"token\":\"t0\",\"role\":\"node\"}]",
        ],
    ),
    (
        "tokens",
        "tokens[0].venID: missing",
        &["[{\"token\":\"t0\",\"role\":\"ven\"}]"],
    ),
    (
        "tokens",
        "tokens[0].venID: not a text",
        &["[{\"token\":\"t0\",\"role\":\"ven\",\"venID\":1}]"],
    ),
    (
        "tokens",
        "tokens[0].venID: not 1 to 128 letters, digits, - and _",
        &["[{\"token\":\"t0\",\"role\":\"ven\",\"venID\":\"\"}]"],
    ),
    (
        "tokens",
        "tokens[0].venID: only a ven has one",
        &[
            "[{\"token\":\"t0\",\"role\":\"operator\",\"venID\":\"v1\"}]",
            "[{\"token\":\"t0\",\"role\":\"utility\",\"venID\":\"v1\"}]",
        ],
    ),
    (
        "tokens",
        "tokens[1].token: the same as in an item before",
        &["[{\"token\":\"t0\",\"role\":\"operator\"},{\"token\":\"t0\",\"role\":\"operator\"}]"],
    ),
    (
        "tokens",
        "tokens[2].token: the same as in an item before",
        &[
            "[{\"token\":\"t0\",\"role\":\"operator\"},{\"token\":\"u0\",\"role\":\"utility\"},{\"token\":\"t0\",\"role\":\"utility\"}]",
        ],
    ),
    ("limits", "limits: not an object", &["[]", "7"]),
    (
        "limits",
        "limits.vens: not a whole number from 1 to 1000",
        &["{\"vens\":0}", "{\"vens\":1001}", "{\"vens\":\"7\"}"],
    ),
    (
        "limits",
        "limits.serial: not a whole number from 1 to 9000000000000000",
        &["{\"serial\":9000000000000001}"],
    ),
    (
        "stopAfter",
        "stopAfter: not a whole number from 1 to 4294967295",
        &["0", "-1", "4294967296", "\"1\""],
    ),
    ("store", "store: not a text", &["7", "true", "[]"]),
    (
        "callbacks",
        "callbacks: not a list",
        &["{}", "true", "\"10.20.0.0/16\""],
    ),
    ("callbacks", "callbacks[0]: not a text", &["[7]", "[null]"]),
    (
        "callbacks",
        "callbacks[0]: not a network",
        &["[\"10.20.0.0\"]", "[\"10.20.3.4/16\"]"],
    ),
    (
        "callbacks",
        "callbacks[1]: not a network",
        &["[\"::1/128\",\"localhost/8\"]"],
    ),
    (
        "log",
        "log: not off, error, warn, info or debug",
        &["\"trace\"", "\"OFF\"", "\"\"", "1", "{}"],
    ),
    (
        "massDeletion",
        "massDeletion: not confirm or at once",
        &["\"atOnce\"", "\"Confirm\"", "\"\"", "true"],
    ),
];

/// Values with which the example is taken, and what is told to have no effect.
const MORE: [(&str, &str, &str); 15] = [
    ("mode", "1", "mode: not a known member"),
    ("stopafter", "\"1\"", "stopafter: not a known member"),
    ("$schema", "\"config.schema.json\"", ""),
    ("stopAfter", "null", ""),
    (
        "limits",
        "{\"keys\":7,\"kyes\":0}",
        "limits.kyes: not a known member",
    ),
    (
        "limits",
        "{\"trail\":7}",
        "limits.trail: has no effect in a node that serves",
    ),
    (
        "tokens",
        "[{\"token\":\"t0\",\"role\":\"operator\",\"name\":\"x\"}]",
        "tokens[0].name: not a known member",
    ),
    (
        "tokens",
        "[{\"token\":\"t0\",\"role\":\"operator\"},{\"token\":\"v0\",\"role\":\"ven\",\"venID\":\"alpha\"}]",
        "tokens[1].venID: no ven has such an id",
    ),
    (
        "tokens",
        "[{\"token\":\"v0\",\"role\":\"ven\",\"venID\":\"v0\"}]",
        "tokens[0].venID: no ven has such an id",
    ),
    (
        "tokens",
        "[{\"token\":\"v0\",\"role\":\"ven\",\"venID\":\"v01\"}]",
        "tokens[0].venID: no ven has such an id",
    ),
    (
        "tokens",
        "[{\"token\":\"v0\",\"role\":\"ven\",\"venID\":\"r1\"}]",
        "tokens[0].venID: no ven has such an id",
    ),
    (
        "tokens",
        "[{\"token\":\"v0\",\"role\":\"ven\",\"venID\":\"v10\"}]",
        "",
    ),
    ("p\\u00e9\\n \\u007fll", "1", "p?? ?ll: not a known member"),
    (
        "1234567890123456789012345678901234567890123456789012345678901234567",
        "1",
        "1234567890123456789012345678901234567890123456789012345678901234: not a known member",
    ),
    ("", "1", ": not a known member"),
];

/// Values of `log`, and the level that each is.
const LEVELS: [(&str, LevelFilter); 6] = [
    ("null", LevelFilter::Off),
    ("\"off\"", LevelFilter::Off),
    ("\"error\"", LevelFilter::Error),
    ("\"warn\"", LevelFilter::Warn),
    ("\"info\"", LevelFilter::Info),
    ("\"debug\"", LevelFilter::Debug),
];

/// Texts that are no configuration, and the level by which they are told of.
const TOLD_BY: [(&str, LevelFilter); 7] = [
    ("{", LevelFilter::Off),
    ("[\"log\",\"debug\"]", LevelFilter::Off),
    ("{}", LevelFilter::Off),
    ("{\"log\":\"off\"}", LevelFilter::Off),
    ("{\"poll\":0,\"log\":\"warn\"}", LevelFilter::Warn),
    ("{\"log\":\"trace\"}", LevelFilter::Error),
    ("{\"log\":4}", LevelFilter::Error),
];

/// Values of `callbacks`, an address, and whether it may be called.
const CALLS: [(&str, &str, bool); 5] = [
    ("null", "127.0.0.1", true),
    ("[]", "127.0.0.1", false),
    ("[\"0.0.0.0/0\"]", "127.0.0.1", true),
    ("[\"192.0.2.7/32\"]", "192.0.2.6", false),
    ("[\"::/0\"]", "::ffff:127.0.0.1", false),
];

/// Texts that are no object.
const NO_OBJECTS: [&str; 4] = ["[]", "7", "null", "\"listen\""];

/// Texts that are no JSON, each with where it stops to be some.
const NO_JSON: [(&str, &str); 5] = [
    ("", "line 1, column 0"),
    ("{", "line 1, column 1"),
    ("{\"poll\":1}}", "line 1, column 11"),
    ("{\n \"poll\": 1,\n}", "line 3, column 1"),
    ("{\"poll\":\u{e9}}", "line 1, column 9"),
];

/// The limits by their names, each with its largest.
const LARGEST: [(&str, u64); 10] = [
    ("keys", 100_000),
    ("vens", 1_000),
    ("subs", 1_000),
    ("resources", 10_000),
    ("shares", 100_000),
    ("reports", 100_000),
    ("frozen", 100_000),
    ("pending", 100_000),
    ("serial", 9_000_000_000_000_000),
    ("trail", 1_000_000),
];

/// Puts a member behind those that are there.
fn put(text: &mut String, name: &str, value: &str) -> Result<(), AllocError> {
    text.push_str(if text.is_empty() { "{\"" } else { ",\"" })?;
    text.push_str(name)?;
    text.push_str("\":")?;
    text.push_str(value)
}

/// The example, but with that value for a member, or without it.
fn example(alloc: Global, other: &str, value: Option<&str>) -> Result<String, AllocError> {
    let mut text = String::new(alloc);
    for (name, usual) in MEMBERS {
        if name != other {
            put(&mut text, name, usual)?;
        }
    }
    if let Some(value) = value {
        put(&mut text, other, value)?;
    }
    text.push_str("}")?;
    Ok(text)
}

fn read(alloc: Global, other: &str, value: Option<&str>) -> Result<Config, Refusal> {
    let text = example(alloc, other, value)?;
    Config::read(alloc, text.as_bytes())
}

/// What is told of a text that is refused, not for want of memory; nothing of one that isn't.
fn told(alloc: Global, text: &str) -> Result<String, AllocError> {
    let is_refused = matches!(Config::read(alloc, text.as_bytes()), Err(Refusal::BadShape));
    match Config::read_or_tell(alloc, text.as_bytes()) {
        Err(fault) if is_refused => format!(in alloc; "{fault}"),
        _ => Ok(String::new(alloc)),
    }
}

/// The same of the example with that value for a member, or without it.
fn told_of(alloc: Global, other: &str, value: Option<&str>) -> Result<String, AllocError> {
    told(alloc, example(alloc, other, value)?.as_str())
}

/// What is told to have no effect in a text, each behind a comma.
fn odd(alloc: Global, text: &str) -> Result<String, AllocError> {
    let mut all = String::new(alloc);
    for oddity in oddities(alloc, text.as_bytes())? {
        if !all.is_empty() {
            all.push_str(", ")?;
        }
        all.push_str(format!(in alloc; "{oddity}")?.as_str())?;
    }
    Ok(all)
}

fn is_example_of_settings(settings: &Settings) -> bool {
    settings.client.as_str() == "aggregator"
        && settings.limits.vens.get() == 7
        && settings.limits.trail.get() == 1_000_000
        && settings.limits.keys.get() == 100_000
}

fn is_example_of_roles(roles: &Roles) -> bool {
    matches!(roles.find(b"t0"), Some(Role::Operator))
        && matches!(roles.find(b"u0"), Some(Role::Utility))
        && matches!(roles.find(b"v0"), Some(Role::Ven(id)) if id.as_str() == "v1")
        && roles.find(b"v1").is_none()
}

fn is_example_of_counts(config: &Config) -> bool {
    config.poll.get() == 3600
        && config.workers.get() == 16
        && config.stop_after.map(|most| most.get()) == Some(2)
}

fn is_example_of_store(config: &Config) -> bool {
    config
        .store
        .as_ref()
        .is_some_and(|path| path.as_str() == "node.db")
}

fn listens_there(config: &Config) -> bool {
    match "127.0.0.1:8080".parse::<SocketAddr>() {
        Ok(address) => config.listen == address,
        Err(_) => false,
    }
}

/// Whether the address may be called.
fn allows(networks: &Networks, address: &str) -> bool {
    match address.parse::<IpAddr>() {
        Ok(address) => networks.allow(&address),
        Err(_) => false,
    }
}

fn is_example_of_callbacks(networks: &Networks) -> bool {
    allows(networks, "10.20.3.4")
        && allows(networks, "::ffff:10.20.3.4")
        && allows(networks, "::1")
        && !allows(networks, "10.21.3.4")
        && !allows(networks, "127.0.0.1")
}

/// Whether it says what the example does.
fn is_example(config: &Config) -> bool {
    listens_there(config)
        && is_example_of_callbacks(&config.callbacks)
        && is_example_of_settings(&config.settings)
        && is_example_of_counts(config)
        && is_example_of_roles(&config.roles)
        && config.log == LevelFilter::Info
        && config.mass_deletion == MassDeletion::AtOnce
        && is_example_of_store(config)
}

#[test]
fn an_example(rt: HostRuntime) -> Result<(), Fail> {
    let alloc = rt.alloc();
    let config = read(alloc, "stopAfter", Some("2"))?;
    assert!(rt; is_example(&config));
    assert_eq!(rt; config.upstream.endpoint(alloc)?.as_str(), "127.0.0.1:8081");
    Ok(())
}

/// Whether the address may be called, where the example says that of `callbacks`.
fn calls(alloc: Global, value: Option<&str>, address: &str) -> Result<bool, Refusal> {
    let config = read(alloc, "callbacks", value)?;
    Ok(allows(&config.callbacks, address))
}

#[test]
fn who_may_be_called(rt: HostRuntime) {
    let alloc = rt.alloc();
    assert!(rt; matches!(calls(alloc, None, "127.0.0.1"), Ok(true)));
    for (value, address, may) in CALLS {
        let answer = calls(alloc, Some(value), address);
        assert!(rt;
            matches!(answer, Ok(answer) if answer == may),
            "{value}: {address}"
        );
    }
}

#[test]
fn what_need_not_be_said(rt: HostRuntime) -> Result<(), Fail> {
    let alloc = rt.alloc();
    assert!(rt; read(alloc, "upstreamToken", None).is_ok());
    assert!(rt; read(alloc, "stopAfter", None)?.stop_after.is_none());
    assert!(rt; read(alloc, "store", None)?.store.is_none());
    assert!(rt; read(alloc, "log", None)?.log == LevelFilter::Off);
    assert!(rt; read(alloc, "massDeletion", None)?.mass_deletion == MassDeletion::Confirm);
    assert!(rt;
        read(alloc, "massDeletion", Some("\"confirm\""))?.mass_deletion == MassDeletion::Confirm
    );
    assert!(rt; read(alloc, "limits", None)?.settings.limits == Limits::largest());
    assert!(rt;
        read(alloc, "tokens", Some("[]"))?
            .roles
            .find(b"t0")
            .is_none()
    );
    Ok(())
}

/// Whether the example with each of these values of a member is told of in those words.
fn is_told_of_each(
    alloc: Global,
    name: &str,
    words: &str,
    values: &[&str],
) -> Result<bool, Refusal> {
    for value in values {
        if told_of(alloc, name, Some(value))?.as_str() != words {
            return Ok(false);
        }
    }
    Ok(true)
}

/// Among them row 26: a configuration with `workers` 0 is refused 14.
#[test]
fn what_is_refused(rt: HostRuntime) -> Result<(), Fail> {
    let alloc = rt.alloc();
    for name in NEEDED {
        let words = format!(in alloc; "{name}: missing")?;
        assert_eq!(rt; told_of(alloc, name, None)?, words);
    }
    for (name, words, values) in WRONG {
        assert!(rt;
            is_told_of_each(alloc, name, words, values)?,
            "{name}: {words}"
        );
    }
    for text in NO_OBJECTS {
        assert_eq!(rt; told(alloc, text)?.as_str(), "not a JSON object", "{text}");
    }
    for (text, place) in NO_JSON {
        let words = format!(in alloc; "{place}: not JSON")?;
        assert_eq!(rt; told(alloc, text)?, words, "{text}");
    }
    let first = "{\"listen\":\"127.0.0.1:8080\",\"log\":7,\"poll\":0}";
    assert_eq!(rt; told(alloc, first)?.as_str(), "upstream: missing");
    Ok(())
}

#[test]
fn what_has_no_effect(rt: HostRuntime) -> Result<(), Fail> {
    let alloc = rt.alloc();
    for (name, value, words) in MORE {
        let text = example(alloc, name, Some(value))?;
        assert!(rt;
            Config::read(alloc, text.as_bytes()).is_ok(),
            "{name}: {value}"
        );
        assert_eq!(rt;
            odd(alloc, text.as_str())?.as_str(),
            words,
            "{name}: {value}"
        );
    }
    let several =
        "{\"tokens\":[7,{\"venID\":\"v 1\",\"Role\":1},{\"venID\":1}],\"limits\":{\"a\":1},\"b\":1,\"Log\":1}";
    let words =
        "Log: not a known member, b: not a known member, limits.a: not a known member, tokens[1].Role: not a known member, tokens[1].venID: no ven has such an id";
    assert_eq!(rt; odd(alloc, several)?.as_str(), words);
    for text in NO_OBJECTS {
        assert!(rt; oddities(alloc, text.as_bytes())?.is_empty(), "{text}");
    }
    Ok(())
}

#[test]
fn how_much_is_told(rt: HostRuntime) -> Result<(), Fail> {
    let alloc = rt.alloc();
    for (value, level) in LEVELS {
        let text = example(alloc, "log", Some(value))?;
        assert!(rt;
            Config::read(alloc, text.as_bytes())?.log == level,
            "{value}"
        );
        assert!(rt; log_of(alloc, text.as_bytes())? == level, "{value}");
    }
    for (text, level) in TOLD_BY {
        assert!(rt; log_of(alloc, text.as_bytes())? == level, "{text}");
    }
    Ok(())
}

/// The example where that limit is said to be so many.
fn limited(alloc: Global, name: &str, value: u64) -> Result<Config, Refusal> {
    let value = format!(in alloc; "{value}")?;
    let mut said = String::new(alloc);
    put(&mut said, name, value.as_str())?;
    said.push_str("}")?;
    read(alloc, "limits", Some(said.as_str()))
}

#[test]
fn limits_by_name(rt: HostRuntime) -> Result<(), Fail> {
    let alloc = rt.alloc();
    for (name, largest) in LARGEST {
        let mut limits = Limits::largest();
        assert!(rt; limits.set(name, 1), "{name}");
        assert!(rt;
            limited(alloc, name, 1)?.settings.limits == limits,
            "{name}"
        );
        assert!(rt;
            limited(alloc, name, largest)?.settings.limits == Limits::largest(),
            "{name}"
        );
        assert!(rt;
            limited(alloc, name, largest.saturating_add(1)).is_err(),
            "{name}"
        );
    }
    Ok(())
}
