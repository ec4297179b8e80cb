//! A day on which nothing is to be sent.
ghost use Rattle.std.specs.Prelude.{◌≡◌};

use crate::clock::Still;
use crate::day::{Day, Meanwhile, run_day};
use crate::desk::{empty_desk, ten};
use crate::peer::{Peer, PeerGate};
use adr_book::{Office, Pass, RecordedTrail};
use adr_link::{HttpReply, LinkFault};
use adr_machine::Desk;
use adr_work::Request;
use std::alloc::Global;
use std::marker::Brand;
use std::sync::Wait;
use std::sync::ledger::{Blank, Ledger};
use std::test::*;
use std::{thread, time};

/// Nobody sends anything to it.
#[derive(Clone, Copy, Drop)]
struct Unused;

impl Peer for Unused {
    fn reply(&self, _request: &Request) -> Result<HttpReply, LinkFault> {
        Err(LinkFault::Read)
    }
}

/// Lets the others work for a while.
#[derive(Clone, Copy, Drop)]
struct ForAWhile;

impl Meanwhile for ForAWhile {
    fn pass_time<D: Desk + Drop, L: Ledger, R: Wait + time::Clock>(
        &self,
        _rt: &R,
        _office: &Office<D, RecordedTrail, L>,
        _pass: &mut Pass<L>,
    ) {
        for _ in 0..10_000u32 {
            thread::yield_now();
        }
    }
}

#[test]
fn an_idle_day_takes_no_turn(rt: HostRuntime) -> Result<(), Fail> {
    let alloc = rt.alloc();
    let desk = empty_desk(alloc)?;
    let mut gates = Vec::new(alloc);
    gates.push(PeerGate::new(Unused))?;
    let clock = Still(ten()?);
    let Ok(Day { counts, left, turn }) = run_day::<Brand, _, _, _, _>(
        rt,
        alloc,
        Blank::new(3),
        desk,
        gates,
        clock,
        4,
        &ForAWhile,
    ) else {
        panic!(rt; "the day was refused")
    };
    assert_eq!(rt; (counts.made, counts.pending), (0, 0));
    assert_eq!(rt; left.len(), 0);
    assert_eq!(rt; turn, 0);
    Ok(())
}
