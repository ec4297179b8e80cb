//! The book under a lock, and the passes of those who use it.
ghost use Rattle.std.specs.Prelude.{◌≡◌, ◌<◌, ◌≤◌, [], All, IfOk, IfErr, length};
ghost use Rattle.std.specs.List.{sum_by};
ghost use Rattle.adr_queries.specs.Listed.{IsListed};
ghost use Rattle.adr_book.specs.Words.{seen_by, taken_by};

use crate::kept::{Book, Pass};
use crate::trail::Trail;
use adr_machine::Desk;
use adr_text::Refusal;
use std::alloc::{AllocError, Global};
use std::sync::Mutex;
use std::sync::ledger::{Blank, Ledger, Share};

/// A book that threads share.
#[derive(Drop)]
pub struct Office<D: Desk, T: Trail<D>, L: Ledger> {
    pub book: Mutex<Book<D, T, L>>,
}

impl<D: Desk, T: Trail<D>, L: Ledger> Office<D, T, L> {
    /// An office whose trail begins with the desk's state, and all its passes.
    pub fn open(
        alloc: Global,
        blank: Blank,
        desk: D,
        passes: u32,
    ) -> Result<(Self, Vec<Pass<L>>), Refusal>
    where
        D: Drop,
        requires name { blank.name ≡ L.name }
        requires parts { (blank.parts ≡ L.parts) × (blank.parts ≡ passes) }
        requires some { (0 < passes) × (passes ≤ 64) }
        ensures passes { IfOk result (λ r. length r.1.items ≡ passes) }
        ensures fresh { IfOk result (λ r. All (λ p. (seen_by p ≡ 0) × (taken_by p ≡ 0)) r.1.items) }
        ensures listed { IfErr result (IsListed D.may_refuse []) }
    {
        let (book, share) = Book::open(alloc, blank, desk)?;
        let all = cut(alloc, share, passes)?;
        Ok((
            Office {
                book: Mutex::new(book),
            },
            all,
        ))
    }

    /// Takes all passes back. Their shares add up to the turn.
    pub fn gather(self, passes: Vec<Pass<L>>) -> u64
    where
        D: Drop,
        requires all { (0 < length passes.items) × (length passes.items ≡ L.parts) }
        ensures { result ≡ sum_by taken_by passes.items }
    {
        let mut all = merged(passes);
        let mut book = self.book.into_inner();
        book.settle(&mut all)
    }
}

/// A pass for each part.
fn cut<L: Ledger>(alloc: Global, share: Share<L>, passes: u32) -> Result<Vec<Pass<L>>, AllocError>
    requires { (share.parts ≡ passes) × (share.amount ≡ 0) }
    ensures passes { IfOk result (λ all. length all.items ≡ passes) }
    ensures fresh { IfOk result (λ all. All (λ p. (seen_by p ≡ 0) × (taken_by p ≡ 0)) all.items) }
{
    let mut rest = share;
    let mut all = Vec::new(alloc);
    for _i in 0..passes {
        let share = rest.split_off(1, 0);
        all.push(Pass { turn: 0, share })?;
    }
    Ok(all)
}

/// The shares of all passes in one.
fn merged<L: Ledger>(passes: Vec<Pass<L>>) -> Share<L>
    requires { 0 < length passes.items }
    ensures parts { result.parts ≡ length passes.items }
    ensures amount { result.amount ≡ sum_by taken_by passes.items }
{
    let mut passes = passes;
    let Some(
        Pass {
            turn: _,
            share: mut all,
        },
    ) = passes.pop()
    else {
        unreachable!()
    };
    while let Some(pass) = passes.pop() {
        let Pass { turn: _, share } = pass;
        all.merge(share);
    }
    all
}
