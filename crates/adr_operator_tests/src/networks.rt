//! What no clause says: which texts are read, and whether some addresses are in some networks.
use adr_network::{Network, Networks, address_of};
use adr_text::Rows;
use std::net::IpAddr;
use std::test::Fail;

const READ: [&str; 12] = [
    "10.20.0.0/16",
    "192.0.2.7/32",
    "192.0.2.6/31",
    "0.0.0.0/0",
    "128.0.0.0/1",
    "10.20.0.0/15",
    "2001:db8::/32",
    "::1/128",
    "::/0",
    "8000::/1",
    "::ffff:10.0.0.0/104",
    "fe80::1:0:0/96",
];

const REFUSED: [&str; 23] = [
    "",
    "/",
    "10.20.0.0",
    "10.20.0.0/",
    "/16",
    "10.20.0.0/16/",
    "10.20.0.0/16/8",
    "10.20.3.4/16",
    "10.20.0.1/31",
    "0.0.0.1/0",
    "10.20.0.0/33",
    "10.20.0.0/016",
    "10.20.0.0/00",
    "10.20.0.0/+16",
    "10.20.0.0/-1",
    "10.20.0.0/16 ",
    " 10.20.0.0/16",
    "10.20.0/16",
    "010.20.0.0/16",
    "localhost/8",
    "2001:db8::1/32",
    "::1/129",
    "[::1]/128",
];

const IN: [(&str, &str); 14] = [
    ("10.20.0.0/16", "10.20.0.0"),
    ("10.20.0.0/16", "10.20.255.255"),
    ("192.0.2.7/32", "192.0.2.7"),
    ("192.0.2.6/31", "192.0.2.7"),
    ("0.0.0.0/0", "255.255.255.255"),
    ("128.0.0.0/1", "200.1.2.3"),
    ("10.20.0.0/16", "::ffff:10.20.3.4"),
    ("0.0.0.0/0", "::ffff:1.2.3.4"),
    ("2001:db8::/32", "2001:db8:ffff::1"),
    ("::1/128", "::1"),
    ("::/0", "ffff::1"),
    ("::/0", "::1.2.3.4"),
    ("8000::/1", "ffff::"),
    ("fe80::1:0:0/96", "fe80::1:7:9"),
];

const OUT: [(&str, &str); 14] = [
    ("10.20.0.0/16", "10.21.0.0"),
    ("10.20.0.0/16", "10.19.255.255"),
    ("192.0.2.7/32", "192.0.2.6"),
    ("192.0.2.6/31", "192.0.2.8"),
    ("128.0.0.0/1", "127.255.255.255"),
    ("10.20.0.0/16", "::ffff:10.21.3.4"),
    ("10.20.0.0/16", "::10.20.3.4"),
    ("0.0.0.0/0", "::"),
    ("2001:db8::/32", "2001:db9::1"),
    ("::1/128", "::2"),
    ("::/0", "1.2.3.4"),
    ("::/0", "::ffff:1.2.3.4"),
    ("::ffff:10.0.0.0/104", "::ffff:10.1.2.3"),
    ("fe80::1:0:0/96", "fe80::2:0:0"),
];

fn has(network: &str, address: &str) -> Option<bool> {
    let address: IpAddr = address.parse().ok()?;
    Some(Network::read(network)?.has(&address))
}

#[test]
fn texts_of_networks(rt: HostRuntime) {
    for text in READ {
        assert!(rt; Network::read(text).is_some(), "{text}");
    }
    for text in REFUSED {
        assert!(rt; Network::read(text).is_none(), "{text}");
    }
}

#[test]
fn addresses_in_networks(rt: HostRuntime) {
    for (network, address) in IN {
        assert!(rt; has(network, address) == Some(true), "{network} {address}");
    }
    for (network, address) in OUT {
        assert!(rt; has(network, address) == Some(false), "{network} {address}");
    }
}

/// Whether an address in the first network, one in the second and one in none may be called.
fn allowed(networks: &Networks) -> Option<(bool, bool, bool)> {
    let first: IpAddr = "10.20.3.4".parse().ok()?;
    let second: IpAddr = "::1".parse().ok()?;
    let none: IpAddr = "192.0.2.7".parse().ok()?;
    Some((
        networks.allow(&first),
        networks.allow(&second),
        networks.allow(&none),
    ))
}

#[test]
fn which_may_be_called(rt: HostRuntime) -> Result<(), Fail> {
    let mut rows = Rows::new(rt.alloc());
    assert!(rt; allowed(&Networks::any()) == Some((true, true, true)));
    rows.push(Network::read("10.20.0.0/16").ok_or("no network")?)?;
    rows.push(Network::read("::1/128").ok_or("no network")?)?;
    assert!(rt; allowed(&Networks::of(rows)) == Some((true, true, false)));
    let none = Networks::of(Rows::new(rt.alloc()));
    assert!(rt; allowed(&none) == Some((false, false, false)));
    Ok(())
}

#[test]
fn addresses(rt: HostRuntime) -> Result<(), Fail> {
    let alloc = rt.alloc();
    let loopback = address_of(alloc, "127.0.0.1:8081")?;
    assert!(rt; loopback.is_some());
    assert_eq!(rt; address_of(alloc, "localhost:8081")?, loopback);
    assert!(rt; address_of(alloc, "[::1]:80")?.is_some());
    for none in [
        "",
        "localhost",
        "localhost:65536",
        "example.org:80",
        "127.0.0.1",
    ] {
        assert!(rt; address_of(alloc, none)?.is_none());
    }
    Ok(())
}

#[test]
fn endpoints_that_may_be_called(rt: HostRuntime) -> Result<(), Fail> {
    let alloc = rt.alloc();
    let mut rows = Rows::new(alloc);
    rows.push(Network::read("127.0.0.0/8").ok_or("no network")?)?;
    let own = Networks::of(rows);
    for endpoint in ["localhost:80", "127.9.9.9:9001", "[::ffff:127.0.0.1]:80"] {
        assert!(rt; own.allow_endpoint(alloc, endpoint)?, "{endpoint}");
    }
    for endpoint in ["192.0.2.7:80", "[::1]:80", "example.org:80", ""] {
        assert!(rt; !own.allow_endpoint(alloc, endpoint)?, "{endpoint}");
    }
    assert!(rt; Networks::any().allow_endpoint(alloc, "192.0.2.7:80")?);
    assert!(rt; !Networks::any().allow_endpoint(alloc, "example.org:80")?);
    Ok(())
}
