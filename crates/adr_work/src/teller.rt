//! Who is told what was found.
ghost use Rattle.std.specs.Prelude.{◌≡◌, List, [], ◌∷◌, ◌++◌, IfOk, IfErr, OnErr};
ghost use Rattle.adr_text.specs.declared.refusal.Refusal.{Refusal};
ghost use Rattle.adr_machine.specs.declared.command.Command.{Command};
ghost use Rattle.adr_lock.specs.Steps.{Step};
ghost use Rattle.adr_work.specs.Tellings.{Memory, with_told};

use adr_machine::{Answer, Command};
use adr_text::Refusal;

/// Is told commands.
pub trait Teller {
    /// The commands so far, and what came of each.
    ghost steps: { Self → List Step };

    /// The commands that were accepted so far.
    ghost memory: { Self → Memory };

    /// By which refusals a command may be refused.
    ghost refuses: { Self → Command → Refusal → Type 0 };

    /// How many versions stood on the pages that were told: no contract says anything of it.
    fn versions(&self) -> u64 {
        0
    }

    /// Takes one command, once.
    fn tell(&mut self, command: &Command) -> Result<Answer, Refusal>
        ensures once { steps self.new ≡ steps self.old ++ (command.now, result) ∷ [] }
        ensures told { IfOk result (λ answer. memory self.new ≡ with_told (memory self.old) ((command.now, answer) ∷ [])) }
        ensures refused { OnErr result (memory self.new ≡ memory self.old) }
        ensures refusal { IfErr result (λ refusal. refuses self.new command.now refusal) };
}
