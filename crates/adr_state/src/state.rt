//! The whole state.
ghost use Rattle.std.specs.Prelude.{◌≡◌, IfOk};

use crate::base::Base;
use crate::keys::ViewKey;
use crate::portfolio::Portfolio;
use crate::serial::Serial;
use adr_delivery::Outbox;
use adr_objects::Stamps;
use adr_text::Table;
use std::alloc::{AllocError, Global};

/// The base, the stamps of what is shown, and the outbox.
pub struct State {
    pub base: Base,
    pub stamps: Table<ViewKey, Stamps>,
    pub outbox: Outbox,
}

impl Drop for State {
    fn drop(self) {
        let State {
            base: _,
            stamps: _,
            outbox: _,
        } = self;
    }
}

impl Base {
    /// The same base again.
    pub fn copy(&self) -> Result<Base, AllocError>
        ensures { IfOk result (λ base. base ≡ self.now) }
    {
        Ok(Base {
            mirror: self.mirror.clone()?,
            scan: self.scan.clone()?,
            portfolio: self.portfolio.copy()?,
            serial: self.serial,
        })
    }
}

/// The same stamps again.
fn stamps_again(stamps: &Table<ViewKey, Stamps>) -> Result<Table<ViewKey, Stamps>, AllocError>
    ensures { IfOk result (λ again. again ≡ stamps.now) }
{
    stamps.clone()
}

impl State {
    ghost use Rattle.adr_state.specs.States.{empty};

    /// The state at first.
    pub fn new(alloc: Global) -> State
        ensures { result ≡ empty }
    {
        State {
            base: Base {
                mirror: Table::new(alloc),
                scan: None,
                portfolio: Portfolio::new(alloc),
                serial: Serial::new(),
            },
            stamps: Table::new(alloc),
            outbox: Outbox::new(alloc),
        }
    }

    /// The same state again.
    pub fn copy(&self) -> Result<State, AllocError>
        ensures { IfOk result (λ state. state ≡ self.now) }
    {
        Ok(State {
            base: self.base.copy()?,
            stamps: stamps_again(&self.stamps)?,
            outbox: self.outbox.copy()?,
        })
    }
}
