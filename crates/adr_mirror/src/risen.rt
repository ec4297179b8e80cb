//! What a page made of the mirror: the keys whose mark rose.
ghost use Rattle.std.specs.Prelude.{◌≡◌, [], IfOk, OnOk};
ghost use Rattle.adr_mirror.specs.Raises.{noted};

use crate::raise::Rise;
use adr_state::{MirrorKey, Polled};
use adr_text::Rows;
use std::alloc::{AllocError, Global};

/// The keys whose mark rose, and how many of them are new to the mirror.
#[derive(Drop)]
pub(crate) struct Risen {
    pub keys: Polled,
    pub added: u64,
}

impl Risen {
    /// None yet.
    pub fn new(alloc: Global) -> Risen
        ensures { result ≡ record { keys = []; added = 0 } }
    {
        Risen {
            keys: Polled::new(alloc),
            added: 0,
        }
    }

    /// Notes what a mark made of its key.
    pub fn note(&mut self, key: MirrorKey, rise: Rise) -> Result<(), AllocError>
        ensures { OnOk result (self.new ≡ noted self.old key rise) }
    {
        match rise {
            Rise::Same => Ok(()),
            Rise::Higher => self.keys.insert(key),
            Rise::First => {
                // Memory does not hold as many keys as would pass a u64.
                self.added = self.added.checked_add(1).ok_or(AllocError)?;
                self.keys.insert(key)
            }
        }
    }

    /// The keys as a list.
    pub fn list(&self, alloc: Global) -> Result<Rows<MirrorKey>, AllocError>
        ensures { IfOk result (λ keys. keys ≡ self.now.keys) }
    {
        let mut keys = Rows::new(alloc);
        for key in self.keys.iter() {
            keys.push(key.clone()?)?;
        }
        Ok(keys)
    }
}
