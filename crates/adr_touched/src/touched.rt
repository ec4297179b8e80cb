//! What a command touches, as its visits go over it one after another.
ghost use Rattle.std.specs.Prelude.{◌≡◌, [], IfOk};
ghost use Rattle.adr_touched.specs.Touched.{CoversWhatTouchesNothing};

use adr_kept_view::OldObject;
use adr_text::{ObjectId, Rows};
use std::alloc::{AllocError, Global};

/// What a command touches: each kind in the order of its keys, each item once. Programs and reports come with what stood
/// at their keys before the command.
pub struct Touched {
    pub programs: Rows<OldObject>,
    /// Upstream events, of which the participants may be shown something else.
    pub events: Rows<ObjectId>,
    pub reports: Rows<OldObject>,
    /// Upstream events of which the roll-up may be another.
    pub rollups: Rows<ObjectId>,
}

impl Drop for Touched {
    fn drop(self) {
        let Touched {
            programs: _,
            events: _,
            reports: _,
            rollups: _,
        } = self;
    }
}

impl Touched {
    /// Nothing is touched.
    pub fn none(alloc: Global) -> Touched
        ensures none { result ≡ record { programs = []; events = []; reports = []; rollups = [] } }
        ensures covers { CoversWhatTouchesNothing result }
    {
        Touched {
            programs: Rows::new(alloc),
            events: Rows::new(alloc),
            reports: Rows::new(alloc),
            rollups: Rows::new(alloc),
        }
    }
}

// The same ids again.
fn copies(alloc: Global, ids: &[ObjectId]) -> Result<Rows<ObjectId>, AllocError>
    ensures { IfOk result (λ copies. copies ≡ ids.now) }
{
    let mut copies = Rows::new(alloc);
    'ids: for id in ids {
        copies.push(id.copy(alloc)?)?;
    }
    Ok(copies)
}

/// Programs, events with their roll-ups, and reports.
pub(crate) fn with_rollups(
    alloc: Global,
    programs: Rows<OldObject>,
    events: Rows<ObjectId>,
    reports: Rows<OldObject>,
) -> Result<Touched, AllocError>
    ensures { IfOk result (λ t. t ≡ record { programs = programs; events = events; reports = reports; rollups = events }) }
{
    let rollups = copies(alloc, events.as_slice())?;
    Ok(Touched {
        programs,
        events,
        reports,
        rollups,
    })
}
