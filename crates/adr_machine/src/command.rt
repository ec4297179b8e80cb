//! What the machine is told to do.
ghost use Rattle.std.specs.Prelude.{◌≡◌, IfOk};

use crate::copies;
use adr_objects::{Found, Kind, Number, ReportIn, ResourceIn, ShareIn, VenIn};
use adr_queries::{Role, is_operator};
use adr_subscription::SubIn;
use adr_text::{ObjectId, Rows};
use std::alloc::AllocError;

/// A command. Each is one step, at a moment, and is refused as is said of it. One of which something may be told, that is
/// all but those on scans, frozen events, subscriptions and entries of the outbox, is also refused where the numbers are used up for the
/// entries that it makes, or the outbox has no room for them.
pub enum Command {
    /// Versions of upstream objects were found, in a page that was polled or in a notification.
    /// Refused where keys would pass their limit.
    Evidence {
        found: Rows<Found>,
        polled: bool,
    },
    /// An upstream object was deleted. Refused where keys would pass their limit.
    Gone {
        kind: Kind,
        id: ObjectId,
    },
    /// Opens a scan: from now on the keys that are polled are noted. An open one is replaced.
    ScanBegin,
    /// Closes the scan, and answers the live keys that were not polled. Refused where no scan is open.
    ScanEnd,
    /// Enrols a ven. Refused for another role than the operator, for a name that a ven has, at the
    /// limit of vens, and where the serial is used up.
    VenAdd {
        role: Role,
        ven: VenIn,
    },
    /// Gives the ven of that id another name, or the same again. Refused for another role than the
    /// operator, where the ven isn't there, and for a name that another ven has.
    VenPut {
        role: Role,
        id: ObjectId,
        ven: VenIn,
    },
    /// Removes the ven of that id, with its resources and their shares and reports. Refused for another role than
    /// the operator, and where the ven isn't there.
    VenRemove {
        role: Role,
        id: ObjectId,
    },
    /// Adds a resource to the ven of that id. Refused as for a ven, and where the ven isn't there.
    ResourceAdd {
        role: Role,
        ven: ObjectId,
        resource: ResourceIn,
    },
    /// Gives the resource of that id another name, or the same again. Refused as for a ven; a resource
    /// of another ven than that of the path isn't there.
    ResourcePut {
        role: Role,
        ven: ObjectId,
        id: ObjectId,
        resource: ResourceIn,
    },
    /// Removes the resource of that id, with its shares and reports. Refused as for a ven; a resource of another
    /// ven than that of the path isn't there.
    ResourceRemove {
        role: Role,
        ven: ObjectId,
        id: ObjectId,
    },
    /// Sets the share of the resource of that id in a program; 0 removes it. Refused for another
    /// role than the operator, where the resource isn't there, for a share above 1,000,000, and at
    /// the limit of shares.
    ShareSet {
        role: Role,
        program: ObjectId,
        resource: ObjectId,
        share: ShareIn,
    },
    /// Freezes the upstream event of that id: those who take part in it now do so from then on with the weights that they
    /// have, whatever shares, names or targets say later. One that is frozen already stays as it is. Answers what is kept
    /// for it. Refused for another role than the operator, where the event is not live with an event's body, and at the
    /// limit of frozen shares.
    Freeze {
        role: Role,
        event: ObjectId,
    },
    /// Posts a report. Refused for the utility, for a ven that isn't enrolled, and where the report's
    /// event is of another ven's resource; where the event isn't shown, where the report names another
    /// resource or program than the event's, at the limit of reports, and where the serial is used up.
    ReportPost {
        role: Role,
        report: ReportIn,
    },
    /// The report of that id says this from now on; it may be on another event. Refused as a new one,
    /// save at the limit of reports, and where the report is on another ven's resource or isn't there.
    ReportPut {
        role: Role,
        id: ObjectId,
        report: ReportIn,
    },
    /// Removes the report of that id. Refused for the utility, for a ven that isn't enrolled, and where the
    /// report is on another ven's resource or isn't there.
    ReportDelete {
        role: Role,
        id: ObjectId,
    },
    /// Makes a subscription of who has the role. Refused where one of its addresses may not be called, for the
    /// utility, for a ven that isn't enrolled, at the limit of subscriptions, and where the serial is used up.
    SubPost {
        role: Role,
        sub: SubIn,
    },
    /// The subscription of that id says this from now on. Refused where one of its addresses may not be called, for
    /// the utility, for a ven that isn't enrolled, and where the subscription is another's or isn't there.
    SubPut {
        role: Role,
        id: ObjectId,
        sub: SubIn,
    },
    /// Removes the subscription of that id. Refused for the utility, for a ven that isn't enrolled, and where the
    /// subscription is another's or isn't there.
    SubDelete {
        role: Role,
        id: ObjectId,
    },
    /// Leases the next entry of the outbox, where one may leave. Refused where it had as many leases as there may be.
    Lease,
    /// The entry was sent under that lease; the utility gave it an id, if it did. Refused where the lease is lost.
    Sent {
        entry: Number,
        lease: u64,
        remote: Option<ObjectId>,
    },
    /// The entry failed under that lease; the utility's id of it is to be forgotten, if it is. Refused where the lease
    /// is lost.
    Failed {
        entry: Number,
        lease: u64,
        forget: bool,
    },
}

impl Drop for Command {
    fn drop(self) {
        match self {
            Command::Evidence {
                found: _,
                polled: _,
            } => (),
            Command::Gone { kind: _, id: _ } => (),
            Command::ScanBegin => (),
            Command::ScanEnd => (),
            Command::VenAdd { role: _, ven: _ } => (),
            Command::VenPut {
                role: _,
                id: _,
                ven: _,
            } => (),
            Command::VenRemove { role: _, id: _ } => (),
            Command::ResourceAdd {
                role: _,
                ven: _,
                resource: _,
            } => (),
            Command::ResourcePut {
                role: _,
                ven: _,
                id: _,
                resource: _,
            } => (),
            Command::ResourceRemove {
                role: _,
                ven: _,
                id: _,
            } => (),
            Command::ShareSet {
                role: _,
                program: _,
                resource: _,
                share: _,
            } => (),
            Command::Freeze { role: _, event: _ } => (),
            Command::ReportPost { role: _, report: _ } => (),
            Command::ReportPut {
                role: _,
                id: _,
                report: _,
            } => (),
            Command::ReportDelete { role: _, id: _ } => (),
            Command::SubPost { role: _, sub: _ } => (),
            Command::SubPut {
                role: _,
                id: _,
                sub: _,
            } => (),
            Command::SubDelete { role: _, id: _ } => (),
            Command::Lease => (),
            Command::Sent {
                entry: _,
                lease: _,
                remote: _,
            } => (),
            Command::Failed {
                entry: _,
                lease: _,
                forget: _,
            } => (),
        }
    }
}

/// What a command is.
#[derive(Clone, Copy)]
struct Traits {
    is_allowed: bool,
    draws_number: bool,
    is_delivery: bool,
    is_quiet: bool,
    unsubscribes: bool,
}

/// Of what may change what is shown.
const SHOWN: Traits = Traits {
    is_allowed: true,
    draws_number: false,
    is_delivery: false,
    is_quiet: false,
    unsubscribes: false,
};

/// Of what leaves all that is shown.
const UNSEEN: Traits = Traits {
    is_quiet: true,
    ..SHOWN
};

/// Of what is about an entry of the outbox.
const DELIVERY: Traits = Traits {
    is_delivery: true,
    ..UNSEEN
};

impl Traits {
    ghost use Rattle.std.specs.Prelude.{true};
    ghost use Rattle.adr_queries.specs.Roles.{is_operator};

    /// Of what the operator alone may give, and this role gives.
    fn given_by(self, role: &Role) -> Traits
        ensures { result ≡ record self { is_allowed = is_operator role.now } }
    {
        Traits {
            is_allowed: is_operator(role),
            ..self
        }
    }

    /// Of what the next number is drawn for.
    fn numbered(self) -> Traits
        ensures { result ≡ record self { draws_number = true } }
    {
        Traits {
            draws_number: true,
            ..self
        }
    }

    /// Of what a subscription may go by.
    fn unsubscribing(self) -> Traits
        ensures { result ≡ record self { unsubscribes = true } }
    {
        Traits {
            unsubscribes: true,
            ..self
        }
    }
}

impl Command {
    ghost use Rattle.adr_machine.specs.Edits.{is_allowed, draws_number, is_delivery, is_quiet, unsubscribes};

    /// The same command again.
    pub fn copy(&self) -> Result<Command, AllocError>
        ensures { IfOk result (λ command. command ≡ self.now) }
    {
        match self {
            Command::Evidence { found, polled } => copies::evidence(found, *polled),
            Command::Gone { kind, id } => copies::gone(*kind, id),
            Command::ScanBegin => Ok(Command::ScanBegin),
            Command::ScanEnd => Ok(Command::ScanEnd),
            Command::VenAdd { role, ven } => copies::ven_add(role, ven),
            Command::VenPut { role, id, ven } => copies::ven_put(role, id, ven),
            Command::VenRemove { role, id } => copies::ven_remove(role, id),
            Command::ResourceAdd {
                role,
                ven,
                resource,
            } => copies::resource_add(role, ven, resource),
            Command::ResourcePut {
                role,
                ven,
                id,
                resource,
            } => copies::resource_put(role, ven, id, resource),
            Command::ResourceRemove { role, ven, id } => copies::resource_remove(role, ven, id),
            Command::ShareSet {
                role,
                program,
                resource,
                share,
            } => copies::share_set(role, program, resource, *share),
            Command::Freeze { role, event } => copies::freeze(role, event),
            Command::ReportPost { role, report } => copies::report_post(role, report),
            Command::ReportPut { role, id, report } => copies::report_put(role, id, report),
            Command::ReportDelete { role, id } => copies::report_delete(role, id),
            Command::SubPost { role, sub } => copies::sub_post(role, sub),
            Command::SubPut { role, id, sub } => copies::sub_put(role, id, sub),
            Command::SubDelete { role, id } => copies::sub_delete(role, id),
            Command::Lease => Ok(Command::Lease),
            Command::Sent {
                entry,
                lease,
                remote,
            } => copies::sent(*entry, *lease, remote),
            Command::Failed {
                entry,
                lease,
                forget,
            } => Ok(Command::Failed {
                entry: *entry,
                lease: *lease,
                forget: *forget,
            }),
        }
    }

    /// The table of commands: what each is.
    fn traits(&self) -> Traits
        ensures { result ≡ record { is_allowed = is_allowed self.now; draws_number = draws_number self.now; is_delivery = is_delivery self.now; is_quiet = is_quiet self.now; unsubscribes = unsubscribes self.now } }
    {
        match self {
            Command::Evidence { .. } => SHOWN,
            Command::Gone { .. } => SHOWN,
            Command::ScanBegin => UNSEEN,
            Command::ScanEnd => UNSEEN,
            Command::VenAdd { role, .. } => SHOWN.numbered().given_by(role),
            Command::VenPut { role, .. } => SHOWN.given_by(role),
            Command::VenRemove { role, .. } => SHOWN.unsubscribing().given_by(role),
            Command::ResourceAdd { role, .. } => SHOWN.numbered().given_by(role),
            Command::ResourcePut { role, .. } => SHOWN.given_by(role),
            Command::ResourceRemove { role, .. } => SHOWN.given_by(role),
            Command::ShareSet { role, .. } => SHOWN.given_by(role),
            Command::Freeze { role, .. } => UNSEEN.given_by(role),
            Command::ReportPost { .. } => SHOWN.numbered(),
            Command::ReportPut { .. } => SHOWN.numbered(),
            Command::ReportDelete { .. } => SHOWN,
            Command::SubPost { .. } => UNSEEN.numbered(),
            Command::SubPut { .. } => UNSEEN,
            Command::SubDelete { .. } => UNSEEN.unsubscribing(),
            Command::Lease => DELIVERY,
            Command::Sent { .. } => DELIVERY,
            Command::Failed { .. } => DELIVERY,
        }
    }

    /// Whether who gives it may, where that is told by the role alone.
    pub fn is_allowed(&self) -> bool
        ensures { result ≡ is_allowed self.now }
    {
        self.traits().is_allowed
    }

    /// Whether the next number is drawn for it: what it makes is new, or a report is given another revision.
    pub fn draws_number(&self) -> bool
        ensures { result ≡ draws_number self.now }
    {
        self.traits().draws_number
    }

    /// Whether it is about an entry of the outbox, and leaves all else.
    pub fn is_delivery(&self) -> bool
        ensures { result ≡ is_delivery self.now }
    {
        self.traits().is_delivery
    }

    /// Whether it leaves all that is shown, whatever is decided: so nothing is told of it.
    pub fn is_quiet(&self) -> bool
        ensures { result ≡ is_quiet self.now }
    {
        self.traits().is_quiet
    }
    /// Whether a subscription may go by it: entries that wait for one that went are dropped.
    pub fn unsubscribes(&self) -> bool
        ensures { result ≡ unsubscribes self.now }
    {
        self.traits().unsubscribes
    }
}
