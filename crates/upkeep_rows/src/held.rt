//! What the tables hold, and what whole views show of it.
use adr_db::Meta;
use adr_lent_image::{lent_base, lent_meta, lent_stamps};
use adr_objects::{Number, Stamps};
use adr_state::{Base, ViewKey};
use adr_text::{Refusal, Table};
use adr_view::{View, view_of};
use sqlite::{Alter, Connection};
use std::alloc::Global;

/// All that is shown, its stamps, and the mirror and the portfolio that are kept.
pub struct Held {
    pub view: View,
    pub stamps: Table<ViewKey, Stamps>,
    pub base: Base,
}

impl Drop for Held {
    fn drop(self) {
        let Held {
            view: _,
            stamps: _,
            base: _,
        } = self;
    }
}

/// Reads it: what is shown is the whole view of the mirror and the portfolio, which are all that it depends on.
pub fn read_held<S: Alter>(alloc: Global, conn: &mut Connection<S>) -> Result<Held, Refusal> {
    let meta = lent_meta(alloc, conn)?;
    let base = lent_base(alloc, conn, &meta)?;
    Ok(Held {
        view: view_of(alloc, &base)?,
        stamps: lent_stamps(alloc, conn)?,
        base,
    })
}

impl Held {
    /// The ven that owns a resource, where it is there.
    pub fn owner(&self, resource: Number) -> Option<Number> {
        match self.base.portfolio.resources.get(resource) {
            Some(found) => Some(found.ven),
            None => None,
        }
    }

    /// Whether the numbers of the node say how much of each kind there is.
    pub fn is_counted(&self, meta: &Meta) -> bool {
        let p = &self.base.portfolio;
        meta.vens == p.vens.len() as u64
            && meta.resources == p.resources.len() as u64
            && meta.shares == p.shares.len() as u64
            && meta.reports == p.reports.len() as u64
            && meta.subs == p.subs.len() as u64
            && meta.frozen == p.frozen_shares.len() as u64
    }
}
