//! Laws over the texts of subscriptions.
ghost use Rattle.adr_subscription.specs.Laws.{KeptTextsReadBack, KeptIsPosted};

/// The text that is kept of a subscription reads back as that subscription, for each that the types
/// admit.
pub fn kept_texts_read_back()
    ensures { KeptTextsReadBack }
{}

/// A text that is kept is read as its bytes are where they are posted.
pub fn kept_is_posted()
    ensures { KeptIsPosted }
{}
