//! A law of the paths.
ghost use Rattle.adr_http.specs.Laws.{MethodsAreServed};

/// By a method that a path has something is asked there, or refused, whoever asks; by any other nothing is, and the reply
/// is 405 with the methods that it has.
pub fn methods_are_served()
    ensures { MethodsAreServed }
{}
