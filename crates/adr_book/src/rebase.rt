//! A book that keeps its trail: who has base and trail can follow it, and may begin it anew.
ghost use Rattle.std.specs.Prelude.{◌≡◌, [], IfErr, OnOk, OnErr};
ghost use Rattle.adr_text.specs.Refusals.{IsRefusalOf};
ghost use Rattle.adr_queries.specs.Listed.{IsListed};
ghost use Rattle.adr_machine.specs.Steps.{image_of};
ghost use Rattle.adr_book.specs.Words.{base_of, since_of, trail_of, turn_of, state_of, settings_of, IsSound};
ghost use Rattle.adr_book.specs.Same.{IsSame};
ghost use Rattle.adr_book.specs.Receipts.{Confirms};

use crate::kept::Book;
use crate::recorded::RecordedTrail;
use adr_machine::{Command, Desk, Image};
use adr_text::{Moment, Refusal};
use std::sync::ledger::Ledger;

impl<D: Desk, L: Ledger> Book<D, RecordedTrail, L> {
    /// The image that the trail begins with.
    pub fn base(&self) -> &Image
        ensures { result.now ≡ base_of self.now }
    {
        &self.trail.base
    }

    /// The turn of the base.
    pub fn since(&self) -> u64
        ensures { result ≡ since_of self.now }
    {
        self.trail.since
    }

    /// The commands that were accepted since then, each with its moment.
    pub fn trail(&self) -> &[(Moment, Command)]
        ensures { result.now ≡ trail_of self.now }
    {
        &self.trail.commands
    }

    /// Makes the present image the base. The trail is empty then, and the turn stays.
    pub fn rebase(&mut self) -> Result<(), Refusal>
        ensures base { OnOk result (IsSound self.new → base_of self.new ≡ state_of self.old) }
        ensures trail { OnOk result (trail_of self.new ≡ []) }
        ensures turn { OnOk result ((turn_of self.new ≡ turn_of self.old) × (since_of self.new ≡ turn_of self.old)) }
        ensures state { IsSound self.new → state_of self.new ≡ state_of self.old }
        ensures refused { IfErr result (λ refusal. IsSound self.new → IsRefusalOf refusal (image_of (state_of self.old))) }
        ensures listed { IfErr result (IsListed D.may_refuse []) }
        ensures unchanged { OnErr result (IsSame self.old self.new) }
        ensures confirms { Confirms self.old self.new }
        ensures same_settings { settings_of self.new ≡ settings_of self.old }
        ensures was_sound { IsSound self.new → IsSound self.old }
    {
        let image = self.desk.image()?;
        let Book {
            trail,
            turn,
            desk: _,
            total: _,
        } = self;
        trail.base = image;
        trail.commands.clear();
        trail.since = *turn;
        Ok(())
    }
}
