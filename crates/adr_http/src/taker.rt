//! Who takes what is asked.
ghost use Rattle.std.specs.Prelude.{◌≡◌, ℕ, List, Result};
ghost use Rattle.adr_text.specs.declared.refusal.Refusal.{Refusal};
ghost use Rattle.adr_queries.specs.declared.answer.Answer.{Answer};
ghost use Rattle.adr_asked.specs.declared.asked.Asked.{Asked};

use adr_asked::Asked;
use adr_machine::Answer;
use adr_text::{Name, Refusal};

/// Takes what is asked, wherever that is done: on a desk, or at an office that threads share.
pub trait Taker {
    /// The taker before, what is asked, what comes of it, and the taker after.
    ghost takes: { Self → Asked → Result Answer Refusal → Self → Type 0 };

    /// The name under which the node answers.
    ghost client: { Self → List ℕ };

    /// Takes what is asked, once.
    fn take(&mut self, asked: &Asked) -> Result<Answer, Refusal>
        ensures takes { takes self.old asked.now result self.new }
        ensures same_client { client self.new ≡ client self.old };

    /// The name under which the node answers.
    fn client(&self) -> &Name
        ensures { result.now ≡ client self.now };
}
