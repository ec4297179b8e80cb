//! What all threads of a node know.
use adr_http::Roles;
use adr_text::Name;
use std::alloc::Global;
use std::sync::Arc;
use std::sync::atomic::{AtomicBool, Ordering};

/// Who may ask, under which name the node answers, and the flag that whoever the store refuses sets, where that ends the
/// node.
pub struct Shared {
    pub alloc: Global,
    pub roles: Roles,
    pub client: Name,
    pub halt: Option<Arc<AtomicBool, Global>>,
}

impl Shared {
    /// The flag, where there is one.
    pub fn halt(&self) -> Option<&AtomicBool> {
        match &self.halt {
            Some(flag) => Some(&**flag),
            None => None,
        }
    }

    /// Whether the store refused anything, where that ends the node.
    pub fn is_halted(&self) -> bool {
        match &self.halt {
            Some(flag) => flag.load(Ordering::SeqCst),
            None => false,
        }
    }
}

impl Drop for Shared {
    fn drop(self) {
        let Shared {
            alloc: _,
            roles: _,
            client: _,
            halt: _,
        } = self;
    }
}
