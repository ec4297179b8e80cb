//! What the machine answers.
use adr_delivery::Job;
use adr_event_text::KeptEvent;
use adr_objects::{
    FrozenObject, OutboxCounts, ProgramObject, ReportObject, ResourceObject, Rollup, ShareObject,
    VenObject,
};
use adr_state::MirrorKey;
use adr_subscription::SubObject;
use adr_text::{ObjectId, Rows};

/// An object as it is shown.
pub enum Object {
    Program(ProgramObject),
    Event(KeptEvent),
    Report(ReportObject),
    Ven(VenObject),
    Resource(ResourceObject),
    Share(ShareObject),
    Sub(SubObject),
}

impl Drop for Object {
    fn drop(self) {
        match self {
            Object::Program(_) => (),
            Object::Event(_) => (),
            Object::Report(_) => (),
            Object::Ven(_) => (),
            Object::Resource(_) => (),
            Object::Share(_) => (),
            Object::Sub(_) => (),
        }
    }
}

/// An answer to a command or a query.
pub enum Answer {
    Done,
    /// How many keys of the view changed.
    Changes(u64),
    /// The live keys that a scan missed.
    Probes(Rows<MirrorKey>),
    Object(Object),
    List(Rows<Object>),
    Share(ShareObject),
    /// The weights that are kept for a frozen event.
    Frozen(FrozenObject),
    /// The roll-up of the upstream event of that id.
    Rollup(ObjectId, Rollup),
    /// How many entries the outbox had, and what came of them.
    Counts(OutboxCounts),
    /// What is to be sent next, where something is.
    Job(Option<Job>),
}

impl Drop for Answer {
    fn drop(self) {
        match self {
            Answer::Done => (),
            Answer::Changes(_) => (),
            Answer::Probes(_) => (),
            Answer::Object(_) => (),
            Answer::List(_) => (),
            Answer::Share(_) => (),
            Answer::Frozen(_) => (),
            Answer::Rollup(_, _) => (),
            Answer::Counts(_) => (),
            Answer::Job(_) => (),
        }
    }
}
