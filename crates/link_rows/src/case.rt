//! Cases: a reply that comes, or a request that is asked for.
use std::alloc::Global;

/// What a reply is read as, or why none is.
#[derive(Clone, Copy, PartialEq, Eq)]
pub enum Verdict {
    /// It is not said: the case is a request.
    Unsaid,
    Reads(u16),
    BadReply,
    TooLarge,
}

/// What a reply means to who asked.
pub struct Meaning {
    pub question: String,
    pub means: String,
}

impl Drop for Meaning {
    fn drop(self) {
        let Meaning {
            question: _,
            means: _,
        } = self;
    }
}

/// A request that is asked for.
pub struct Request {
    pub address: Vec<u8>,
    pub token: Option<Vec<u8>>,
    pub question: String,
    pub target: Vec<u8>,
    pub shows: Option<Vec<u8>>,
    pub sends: Vec<u8>,
    /// Its bytes.
    pub writes: Vec<u8>,
    /// Why there is none: `upstream` or `job`. Empty, where there is one.
    pub refused: String,
}

impl Drop for Request {
    fn drop(self) {
        let Request {
            address: _,
            token: _,
            question: _,
            target: _,
            shows: _,
            sends: _,
            writes: _,
            refused: _,
        } = self;
    }
}

/// A case of a table.
pub struct Case {
    pub name: String,
    pub comes: Vec<u8>,
    pub verdict: Verdict,
    pub body: Vec<u8>,
    pub meanings: Vec<Meaning>,
    pub request: Request,
}

impl Drop for Case {
    fn drop(self) {
        let Case {
            name: _,
            comes: _,
            verdict: _,
            body: _,
            meanings: _,
            request: _,
        } = self;
    }
}

impl Request {
    fn new(alloc: Global) -> Request {
        Request {
            address: Vec::new(alloc),
            token: None,
            question: String::new(alloc),
            target: Vec::new(alloc),
            shows: None,
            sends: Vec::new(alloc),
            writes: Vec::new(alloc),
            refused: String::new(alloc),
        }
    }
}

impl Case {
    pub fn new(alloc: Global, name: String) -> Case {
        Case {
            name,
            comes: Vec::new(alloc),
            verdict: Verdict::Unsaid,
            body: Vec::new(alloc),
            meanings: Vec::new(alloc),
            request: Request::new(alloc),
        }
    }
}
