//! The plain desk: it works on a copy, and puts that in place when nothing can fail any more.
ghost use Rattle.std.specs.Prelude.{◌≡◌, [], Ok, IfOk, IfErr, OnErr};
ghost use Rattle.adr_state.specs.States.{empty};
ghost use Rattle.adr_state.specs.Fitting.{Fits};
ghost use Rattle.adr_queries.specs.Listed.{listed_for, IsListed};
ghost use Rattle.adr_machine.specs.Listed.{listed};
ghost use Rattle.adr_queries.specs.Replies.{reply};
ghost use Rattle.adr_machine.specs.Steps.{step, image_of};
ghost use Rattle.adr_text.specs.Refusals.{IsRefusalOf};

use crate::command::Command;
use crate::commit::next;
use crate::desk::Desk;
use adr_queries::{Answer, Query, reply};
use adr_state::{Image, Settings, State};
use adr_text::{Moment, Refusal};
use std::alloc::Global;

// The image of a state that fits.
fn held(state: State) -> Image
    requires { Fits state }
    ensures { result ≡ state }
{
    let Some(image) = Image::of(state) else {
        unreachable!()
    };
    image
}

/// A desk over plain maps in memory.
#[derive(Drop)]
pub struct PlainDesk {
    alloc: Global,
    settings: Settings,
    image: Image,
}

impl PlainDesk {
    /// A desk with the state at first.
    pub fn new(alloc: Global, settings: Settings) -> PlainDesk
        ensures state { ⟦<PlainDesk as Desk>⟧.state result ≡ empty }
        ensures settings { ⟦<PlainDesk as Desk>⟧.settings result ≡ settings }
    {
        PlainDesk {
            alloc,
            settings,
            image: held(State::new(alloc)),
        }
    }

    /// A desk with the state of an image.
    pub fn of(alloc: Global, settings: Settings, image: Image) -> PlainDesk
        ensures state { ⟦<PlainDesk as Desk>⟧.state result ≡ image }
        ensures settings { ⟦<PlainDesk as Desk>⟧.settings result ≡ settings }
    {
        PlainDesk {
            alloc,
            settings,
            image,
        }
    }
}

impl Desk for PlainDesk {
    ghost state = { λ d. d.image };

    ghost settings = { λ d. d.settings };

    ghost is_sound = { λ _. Unit {0} };

    ghost stands = { λ _. Unit {0} };

    ghost may_refuse = { ⊥ };

    fn apply(&mut self, now: Moment, command: &Command) -> Result<Answer, Refusal>
        ensures ok { IfOk result (λ answer. Unit {0} → step self.old.settings self.old.image now command.now ≡ Ok (answer, self.new.image)) }
        ensures refused { IfErr result (λ refusal. Unit {0} → IsRefusalOf refusal (step self.old.settings self.old.image now command.now)) }
        ensures listed { IfErr result (IsListed ⊥ (listed command.now)) }
        ensures unchanged { OnErr result (Unit {0} → self.new.image ≡ self.old.image) }
        ensures was_sound { Unit {0} → Unit {0} }
        ensures stays_sound { Unit {0} → Unit {0} → Unit {0} }
        ensures stood { Unit {0} → Unit {0} }
        ensures same_settings { self.new.settings ≡ self.old.settings }
    {
        let state = self.image.state();
        let (answer, state) = next(self.alloc, &self.settings, state, now, command)?;
        self.image = held(state);
        Ok(answer)
    }

    fn ask(&mut self, query: &Query) -> Result<Answer, Refusal>
        ensures ok { IfOk result (λ answer. Unit {0} → reply self.old.image query.now ≡ Ok answer) }
        ensures refused { IfErr result (λ refusal. Unit {0} → IsRefusalOf refusal (reply self.old.image query.now)) }
        ensures listed { IfErr result (IsListed ⊥ (listed_for query.now)) }
        ensures unchanged { Unit {0} → self.new.image ≡ self.old.image }
        ensures was_sound { Unit {0} → Unit {0} }
        ensures stays_sound { Unit {0} → Unit {0} → Unit {0} }
        ensures stood { Unit {0} → Unit {0} }
        ensures same_settings { self.new.settings ≡ self.old.settings }
    {
        reply(self.alloc, self.image.state(), query)
    }

    fn image(&mut self) -> Result<Image, Refusal>
        ensures ok { IfOk result (λ image. Unit {0} → image ≡ self.old.image) }
        ensures refused { IfErr result (λ refusal. Unit {0} → IsRefusalOf refusal (image_of self.old.image)) }
        ensures listed { IfErr result (IsListed ⊥ []) }
        ensures unchanged { Unit {0} → self.new.image ≡ self.old.image }
        ensures was_sound { Unit {0} → Unit {0} }
        ensures stays_sound { Unit {0} → Unit {0} → Unit {0} }
        ensures stood { Unit {0} → Unit {0} }
        ensures same_settings { self.new.settings ≡ self.old.settings }
    {
        Ok(self.image.copy()?)
    }

    fn settings(&self) -> &Settings {
        &self.settings
    }
}
