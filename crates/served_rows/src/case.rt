//! A case: a request as bytes, and what it has to give.
use std::alloc::Global;

/// A case of a table.
pub struct Case {
    pub name: String,
    pub request: Vec<u8>,
    pub reply: Vec<u8>,
    /// The lines of a script behind the request.
    pub script: Vec<u8>,
    /// What they print.
    pub printed: Vec<u8>,
}

impl Drop for Case {
    fn drop(self) {
        let Case {
            name: _,
            request: _,
            reply: _,
            script: _,
            printed: _,
        } = self;
    }
}

impl Case {
    pub fn new(alloc: Global, name: String) -> Case {
        Case {
            name,
            request: Vec::new(alloc),
            reply: Vec::new(alloc),
            script: Vec::new(alloc),
            printed: Vec::new(alloc),
        }
    }
}
