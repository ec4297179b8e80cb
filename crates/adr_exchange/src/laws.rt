//! Laws of messages between two nodes.
ghost use Rattle.adr_exchange.specs.Exchanges.{RepliesReadBack, RequestsReadBack, ClientsRequestsFit, KeptAddressesMayBeCalled};

/// A reply that the server writes is read by the client as its status and its body.
pub fn replies_read_back()
    ensures { RepliesReadBack }
{}

/// A request that the client writes is read by the server as its method, its target, its host, its token and its body.
pub fn requests_read_back()
    ensures { RequestsReadBack }
{}

/// The requests that the client makes are such as the server reads, where they are not too long: pages and probes of the
/// utility, reports to it, and notifications.
pub fn clients_requests_fit()
    ensures { ClientsRequestsFit }
{}

/// An address of a subscription as it is kept may be called, and is read as the URL that was posted.
pub fn kept_addresses_may_be_called()
    ensures { KeptAddressesMayBeCalled }
{}
