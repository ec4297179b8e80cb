//! Where requests are sent.
ghost use Rattle.std.specs.Prelude.{◌≡◌, List, [], ◌∷◌, ◌++◌};
ghost use Rattle.adr_work.specs.Exchanges.{Exchange};

use crate::account::Account;
use crate::request::Request;
use adr_link::{HttpReply, LinkFault};

/// Where requests are sent. One thread has it alone.
pub trait Gate {
    /// The requests so far, and what came of each.
    ghost exchanges: { Self → List Exchange };

    /// Sends a request, and gives the reply, or the fault where none came.
    fn ask(&mut self, request: &Request) -> Result<HttpReply, LinkFault>
        ensures { exchanges self.new ≡ exchanges self.old ++ (request.now, result) ∷ [] };

    /// Is told before single objects are asked for how many these are, and how many versions stood on the pages of the
    /// round. A gate may let none of these requests through, as it may any.
    fn look_ahead(&mut self, _versions: u64, _missed: u64)
        ensures { exchanges self.new ≡ exchanges self.old }
    {}

    /// How the last exchange went, for the log: no contract says anything of it.
    fn account(&self) -> Account {
        Account::Untold
    }
}
