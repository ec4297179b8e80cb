//! What the log is told first of a node that begins. No contract says anything of it.
use crate::version::{TABLES, VERSION};
use adr_config::Config;
use adr_http::Grant;
use adr_machine::Role;
use adr_state::Limits;
use log::{Log, info};
use std::fmt;
use std::fmt::{Display, Formatter};

/// How many networks may be called, or that any address may.
#[derive(Clone, Copy)]
struct Called(Option<usize>);

impl Display for Called {
    fn fmt<W: fmt::Write>(&self, f: &mut Formatter<W>) -> fmt::Result {
        match self.0 {
            None => f.write_str("any"),
            Some(0) => f.write_str("none"),
            Some(count) => write!(f, "{count}"),
        }
    }
}

/// The limits that aren't the largest, each with its number.
#[derive(Clone, Copy)]
struct Lowered<'a>(&'a Limits);

/// A limit: its name, its number, and the largest one.
type Limit = (&'static str, u64, u64);

/// Writes those that aren't the largest.
fn write_lowered<W: fmt::Write>(f: &mut Formatter<W>, limits: &[Limit]) -> fmt::Result {
    let mut before = "";
    for (name, number, largest) in limits {
        if number < largest {
            write!(f, "{before}{name}:{number}")?;
            before = ",";
        }
    }
    if before.is_empty() {
        f.write_str("none")?;
    }
    Ok(())
}

impl Display for Lowered<'_> {
    fn fmt<W: fmt::Write>(&self, f: &mut Formatter<W>) -> fmt::Result {
        let here = self.0;
        let most = Limits::largest();
        write_lowered(
            f,
            &[
                ("keys", here.keys.get(), most.keys.get()),
                ("vens", here.vens.get(), most.vens.get()),
                ("subs", here.subs.get(), most.subs.get()),
                ("resources", here.resources.get(), most.resources.get()),
                ("shares", here.shares.get(), most.shares.get()),
                ("reports", here.reports.get(), most.reports.get()),
                ("frozen", here.frozen.get(), most.frozen.get()),
                ("pending", here.pending.get(), most.pending.get()),
                ("serial", here.serial.get(), most.serial.get()),
            ],
        )
    }
}

/// How many tokens there are of each role.
#[derive(Clone, Copy)]
struct Tokens {
    operator: u64,
    utility: u64,
    ven: u64,
}

impl Tokens {
    fn of(grants: &[Grant]) -> Tokens {
        let mut tokens = Tokens {
            operator: 0,
            utility: 0,
            ven: 0,
        };
        for grant in grants {
            let count = match &grant.role {
                Role::Operator => &mut tokens.operator,
                Role::Utility => &mut tokens.utility,
                Role::Ven(_) => &mut tokens.ven,
            };
            *count = count.saturating_add(1);
        }
        tokens
    }
}

/// Tells which version begins, over which file or none, and what it is set to. No token is told.
pub fn tell_beginning<R: Log>(rt: &R, config: &Config) {
    let called = Called(config.callbacks.count());
    let lowered = Lowered(&config.settings.limits);
    let Tokens {
        operator,
        utility,
        ven,
    } = Tokens::of(config.roles.grants());
    match &config.store {
        Some(path) => info!(
            rt; target: "node",
            version = VERSION, store = path.as_str(), tables = TABLES, lowered:%, callbacks:% = called, operator, utility, ven;
            "begins"
        ),
        None => info!(
            rt; target: "node",
            version = VERSION, lowered:%, callbacks:% = called, operator, utility, ven;
            "begins, a trial: all is kept in memory"
        ),
    }
}
