//! A gate that is careful where so many objects stand on no page that the utility may be out of order.
ghost use Rattle.std.specs.Prelude.{◌≡◌, []};
ghost use Rattle.adr_server.specs.Cautions.{is_mass};

use crate::gate::ask_unless;
use adr_link::{HttpReply, LinkFault};
use adr_work::{Account, Gate, Request};
use http_server::Log;

/// So many objects on no page are always asked for.
const FEW: u64 = 10;

/// Whether so many objects on no page, beside so many versions on pages, may be a utility that is out of order: they
/// are more than a few, and more than half of what is live, of which those on pages are the rest at most.
fn is_mass(versions: u64, missed: u64) -> bool
    ensures { result ≡ is_mass versions missed }
{
    FEW < missed && versions < missed
}

/// A gate through which no request for a single object goes where there are too many of these, until a second round,
/// behind that one, finds as much. To the round each of them is a probe that failed, which is passed over.
#[derive(Drop)]
pub struct CautiousGate<G: Gate + Drop> {
    gate: G,
    /// Whether it is careful at all.
    confirms: bool,
    /// Whether it lets none of these requests through now. Then the next such round is the second one.
    withholds: bool,
    /// Whether the last request was not let through for that.
    is_withheld: bool,
    log: Log<Request, Result<HttpReply, LinkFault>>,
}

/// Whether a request is for a single object: one for a page has a query in its first line.
fn is_for_one(request: &Request) -> bool {
    for byte in request.bytes.as_slice() {
        match *byte {
            b'?' => return false,
            b'\n' => return true,
            _ => (),
        }
    }
    true
}

impl<G: Gate + Drop> CautiousGate<G> {
    /// The same gate, with this care where that is wanted.
    pub fn new(gate: G, confirms: bool) -> CautiousGate<G>
        ensures { result.log.items ≡ [] }
    {
        CautiousGate {
            gate,
            confirms,
            withholds: false,
            is_withheld: false,
            log: Log::new(),
        }
    }
}

impl<G: Gate + Drop> Gate for CautiousGate<G> {
    ghost exchanges = { λ g. g.log.items };

    fn ask(&mut self, request: &Request) -> Result<HttpReply, LinkFault> {
        let withheld = self.withholds && is_for_one(request);
        let came = ask_unless(withheld, &mut self.gate, request);
        self.is_withheld = withheld;
        self.log = self.log.and(request, &came);
        came
    }

    fn look_ahead(&mut self, versions: u64, missed: u64) {
        self.withholds = self.confirms && !self.withholds && is_mass(versions, missed);
    }

    fn account(&self) -> Account {
        if self.is_withheld {
            return Account::Withheld;
        }
        self.gate.account()
    }
}
