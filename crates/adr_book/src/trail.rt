//! What a book has of the commands that it accepted.
ghost use Rattle.std.specs.Prelude.{◌≡◌, ◌∷◌, ◌++◌, [], ℕ, Bool, ◌&&◌, nat_le, List, Option, IfOk, IfErr, length};
ghost use Rattle.adr_state.specs.declared.state.State.{State};
ghost use Rattle.adr_machine.specs.declared.command.Command.{Command};
ghost use Rattle.adr_queries.specs.Listed.{IsListed};

use adr_machine::{Command, Desk};
use adr_text::{Moment, Refusal};
use std::alloc::{AllocError, Global};

/// The commands that a book accepted since a base, which contracts see whether or not they are kept in memory.
pub trait Trail<D: Desk>: Drop {
    /// The state that it begins with.
    ghost base: { Self → State };

    /// The turn of the base.
    ghost since: { Self → ℕ };

    /// The commands that were accepted since then, each with its moment.
    ghost commands: { Self → List (ℕ × Command) };

    /// Whether it keeps base and commands in memory, where there may be too many.
    ghost keeps: { Bool };

    /// That it can note this command, of which this is its copy, without want of memory.
    ghost is_ready: { Self → Option Command → Command → Type 0 };

    /// A trail that begins with the present state of a desk, at turn 0.
    fn open(alloc: Global, desk: &mut D) -> Result<Self, Refusal>
        ensures base { IfOk result (λ trail. D.is_sound desk.new → base trail ≡ D.state desk.old) }
        ensures begins { IfOk result (λ trail. (since trail ≡ 0) × (commands trail ≡ [])) }
        ensures listed { IfErr result (IsListed D.may_refuse []) }
        ensures state { D.is_sound desk.new → D.state desk.new ≡ D.state desk.old }
        ensures was_sound { D.is_sound desk.new → D.is_sound desk.old }
        ensures same_settings { D.settings desk.new ≡ D.settings desk.old };

    /// Whether it takes no command more, where so many may be kept.
    fn is_full(&self, limit: u64) -> bool
        ensures { result ≡ (keeps && nat_le limit (length (commands self.now))) };

    /// Makes room for a command, and copies it, where it keeps commands.
    fn ready(&mut self, command: &Command) -> Result<Option<Command>, AllocError>
        ensures ready { IfOk result (λ copy. is_ready self.new copy command.now) }
        ensures base { (base self.new ≡ base self.old) × (since self.new ≡ since self.old) }
        ensures commands { commands self.new ≡ commands self.old };

    /// Notes an accepted command.
    fn note(&mut self, now: Moment, command: &Command, copy: Option<Command>)
        requires { is_ready self.old copy command.now }
        ensures base { (base self.new ≡ base self.old) × (since self.new ≡ since self.old) }
        ensures commands { commands self.new ≡ commands self.old ++ (now, command.now) ∷ [] };
}
