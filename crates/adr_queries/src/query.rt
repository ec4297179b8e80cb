//! What the machine is asked.
use crate::filter::{EventFilter, ReportFilter};
use crate::role::Role;
use adr_text::ObjectId;

/// Which part of a listing: after `skip` objects, at most `limit` (OpenADR 3.0, skip and limit).
#[derive(Clone, Copy, PartialEq, Eq)]
pub struct Page {
    pub skip: u32,
    pub limit: u32,
}

/// A query, which changes nothing.
#[derive(Clone)]
pub enum Query {
    /// The programs, by id: every enrolled ven sees them.
    Programs {
        role: Role,
        page: Page,
    },
    /// The program of an id. Refused where it isn't there.
    Program {
        role: Role,
        id: ObjectId,
    },
    /// The events that the role sees and the filter wants, by upstream id and then by resource.
    Events {
        role: Role,
        filter: EventFilter,
        page: Page,
    },
    /// The event of an id, which names a resource before its first `-`. Refused for the resource of
    /// another ven, and where it isn't there.
    Event {
        role: Role,
        id: ObjectId,
    },
    /// The vens that the role sees, by number: a ven sees itself alone.
    Vens {
        role: Role,
        page: Page,
    },
    /// The ven of an id. Refused where it isn't there, and for another ven.
    Ven {
        role: Role,
        id: ObjectId,
    },
    /// The resources of the ven of an id, by number. Refused where the ven isn't there, and for another
    /// ven.
    Resources {
        role: Role,
        ven: ObjectId,
        page: Page,
    },
    /// The resource of an id. Refused for another ven than its own, where it isn't there, and where the
    /// path names another ven than its own.
    Resource {
        role: Role,
        ven: ObjectId,
        id: ObjectId,
    },
    /// All shares in a program, by resource number. Refused for another role than the operator.
    Shares {
        role: Role,
        program: ObjectId,
    },
    /// The weights that are kept for an upstream event, by resource number. Refused for another role than the operator, and
    /// where the event was never frozen.
    Frozen {
        role: Role,
        event: ObjectId,
    },
    /// The reports that the role sees and the filter wants, by number.
    Reports {
        role: Role,
        filter: ReportFilter,
        page: Page,
    },
    /// The report of an id. Refused where it isn't there, and where it is on another ven's resource.
    Report {
        role: Role,
        id: ObjectId,
    },
    /// The roll-up of an upstream event. Refused for another role than the operator, and where there is
    /// none.
    Rollup {
        role: Role,
        event: ObjectId,
    },
    /// The subscriptions that the role sees and the filter wants, by number.
    Subs {
        role: Role,
        filter: ReportFilter,
        page: Page,
    },
    /// The subscription of an id. Refused where it isn't there, and where it is another's.
    Sub {
        role: Role,
        id: ObjectId,
    },
    /// How many entries the outbox had, and what came of them. Refused for another role than the operator.
    Outbox {
        role: Role,
    },
    /// The first keys that the end of the scan would answer. Refused where no scan is open.
    Probes {
        limit: u32,
    },
}

impl Drop for Query {
    fn drop(self) {
        match self {
            Query::Programs { role: _, page: _ } => (),
            Query::Program { role: _, id: _ } => (),
            Query::Events {
                role: _,
                filter: _,
                page: _,
            } => (),
            Query::Event { role: _, id: _ } => (),
            Query::Vens { role: _, page: _ } => (),
            Query::Ven { role: _, id: _ } => (),
            Query::Resources {
                role: _,
                ven: _,
                page: _,
            } => (),
            Query::Resource {
                role: _,
                ven: _,
                id: _,
            } => (),
            Query::Shares {
                role: _,
                program: _,
            } => (),
            Query::Frozen { role: _, event: _ } => (),
            Query::Reports {
                role: _,
                filter: _,
                page: _,
            } => (),
            Query::Report { role: _, id: _ } => (),
            Query::Rollup { role: _, event: _ } => (),
            Query::Subs {
                role: _,
                filter: _,
                page: _,
            } => (),
            Query::Sub { role: _, id: _ } => (),
            Query::Probes { limit: _ } => (),
            Query::Outbox { role: _ } => (),
        }
    }
}
