//! A law of refusals.
ghost use Rattle.adr_laws.specs.Refusals.{RefusalsAreListed};

/// Whatever the state, a command and a query are refused by nothing but what is listed for them: never by
/// want of memory, the store's refusal, a full trail or a pass that is ahead.
pub fn refusals_are_listed()
    ensures { RefusalsAreListed }
{}
