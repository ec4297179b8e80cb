//! A desk is whatever keeps the machine's state. Its clauses say that `apply` is the machine's step.
ghost use Rattle.std.specs.Prelude.{◌≡◌, [], Ok, IfOk, IfErr, OnErr};
ghost use Rattle.adr_state.specs.declared.state.State.{State};
ghost use Rattle.adr_state.specs.declared.limits.Settings.{Settings};
ghost use Rattle.adr_queries.specs.Listed.{listed_for, IsListed};
ghost use Rattle.adr_machine.specs.Listed.{listed};
ghost use Rattle.adr_queries.specs.Replies.{reply};
ghost use Rattle.adr_machine.specs.Steps.{step, image_of};
ghost use Rattle.adr_text.specs.Refusals.{IsRefusalOf};

use crate::command::Command;
use adr_queries::{Answer, Query};
use adr_state::{Image, Settings};
use adr_text::{Moment, Refusal};

/// Keeps the machine's state, in memory or elsewhere.
pub trait Desk {
    /// The machine's state, however it is kept.
    ghost state: { Self → State };

    ghost settings: { Self → Settings };

    /// What the clauses ask of the desk as a call ends. One that is sound after a call was so before.
    ghost is_sound: { Self → Type 0 };

    /// That its store is open and gave back what was written. One that stands after a call stood before, and one that was
    /// sound before and stands after is sound after.
    ghost stands: { Self → Type 0 };

    /// That the desk has a store, which may refuse. Where it is ⊥, the store's refusal is never answered.
    ghost may_refuse: { Type 0 };

    /// Takes one step. Only want of memory, and the store where it may refuse, may stand in place of the
    /// machine's answer. Any other refusal is one that is listed for the command, also of a desk that isn't
    /// sound.
    fn apply(&mut self, now: Moment, command: &Command) -> Result<Answer, Refusal>
        ensures ok { IfOk result (λ answer. is_sound self.new → step (settings self.old) (state self.old) now command.now ≡ Ok (answer, state self.new)) }
        ensures refused { IfErr result (λ refusal. is_sound self.new → IsRefusalOf refusal (step (settings self.old) (state self.old) now command.now)) }
        ensures listed { IfErr result (IsListed may_refuse (listed command.now)) }
        ensures unchanged { OnErr result (is_sound self.new → state self.new ≡ state self.old) }
        ensures was_sound { is_sound self.new → is_sound self.old }
        ensures stays_sound { is_sound self.old → stands self.new → is_sound self.new }
        ensures stood { stands self.new → stands self.old }
        ensures same_settings { settings self.new ≡ settings self.old };

    /// Answers a query, and leaves the state.
    fn ask(&mut self, query: &Query) -> Result<Answer, Refusal>
        ensures ok { IfOk result (λ answer. is_sound self.new → reply (state self.old) query.now ≡ Ok answer) }
        ensures refused { IfErr result (λ refusal. is_sound self.new → IsRefusalOf refusal (reply (state self.old) query.now)) }
        ensures listed { IfErr result (IsListed may_refuse (listed_for query.now)) }
        ensures unchanged { is_sound self.new → state self.new ≡ state self.old }
        ensures was_sound { is_sound self.new → is_sound self.old }
        ensures stays_sound { is_sound self.old → stands self.new → is_sound self.new }
        ensures stood { stands self.new → stands self.old }
        ensures same_settings { settings self.new ≡ settings self.old };

    /// The whole state, which stays.
    fn image(&mut self) -> Result<Image, Refusal>
        ensures ok { IfOk result (λ image. is_sound self.new → image ≡ state self.old) }
        ensures refused { IfErr result (λ refusal. is_sound self.new → IsRefusalOf refusal (image_of (state self.old))) }
        ensures listed { IfErr result (IsListed may_refuse []) }
        ensures unchanged { is_sound self.new → state self.new ≡ state self.old }
        ensures was_sound { is_sound self.new → is_sound self.old }
        ensures stays_sound { is_sound self.old → stands self.new → is_sound self.new }
        ensures stood { stands self.new → stands self.old }
        ensures same_settings { settings self.new ≡ settings self.old };

    /// What the desk is set to.
    fn settings(&self) -> &Settings
        ensures { result.now ≡ settings self.now };
}
