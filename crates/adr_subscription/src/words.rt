//! The words for kinds of objects, and for what was done to one.
ghost use Rattle.std.specs.Prelude.{◌≡◌};
ghost use Rattle.adr_subscription.specs.Words.{kind_word, kind_named, operation_word, operation_named};

use adr_text::Fault;

/// A kind of object (OpenADR 3.0, objectType).
#[derive(Clone, Copy, PartialEq, Eq)]
pub enum ObjectKind {
    Program,
    Event,
    Report,
    Subscription,
    Ven,
    Resource,
}

/// What was done to an object (OpenADR 3.0, operation of a notification).
#[derive(Clone, Copy, PartialEq, Eq)]
pub enum OperationKind {
    Get,
    Post,
    Put,
    Delete,
}

impl ObjectKind {
    /// The kind of that word.
    pub fn named(word: &str) -> Result<ObjectKind, Fault>
        ensures { result ≡ kind_named word.now }
    {
        match word {
            "PROGRAM" => Ok(ObjectKind::Program),
            "EVENT" => Ok(ObjectKind::Event),
            "REPORT" => Ok(ObjectKind::Report),
            "SUBSCRIPTION" => Ok(ObjectKind::Subscription),
            "VEN" => Ok(ObjectKind::Ven),
            "RESOURCE" => Ok(ObjectKind::Resource),
            _ => Err(Fault::BadShape),
        }
    }

    /// Its word.
    pub fn word(self) -> &'static str
        ensures { result.now ≡ kind_word self }
    {
        match self {
            ObjectKind::Program => "PROGRAM",
            ObjectKind::Event => "EVENT",
            ObjectKind::Report => "REPORT",
            ObjectKind::Subscription => "SUBSCRIPTION",
            ObjectKind::Ven => "VEN",
            ObjectKind::Resource => "RESOURCE",
        }
    }
}

impl OperationKind {
    /// The operation of that word.
    pub fn named(word: &str) -> Result<OperationKind, Fault>
        ensures { result ≡ operation_named word.now }
    {
        match word {
            "GET" => Ok(OperationKind::Get),
            "POST" => Ok(OperationKind::Post),
            "PUT" => Ok(OperationKind::Put),
            "DELETE" => Ok(OperationKind::Delete),
            _ => Err(Fault::BadShape),
        }
    }

    /// Its word.
    pub fn word(self) -> &'static str
        ensures { result.now ≡ operation_word self }
    {
        match self {
            OperationKind::Get => "GET",
            OperationKind::Post => "POST",
            OperationKind::Put => "PUT",
            OperationKind::Delete => "DELETE",
        }
    }
}
