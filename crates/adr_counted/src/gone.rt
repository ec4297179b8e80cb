//! How many go.
ghost use Rattle.std.specs.Prelude.{◌≡◌, if◌then◌else◌, IfErr, OnOk};
ghost use Rattle.adr_db.specs.Calls.{IsOfStore};
ghost use Rattle.adr_counted.specs.Gone.{IsLess, none_gone};

use crate::counts::left;
use adr_db::Meta;
use adr_text::Refusal;

/// How many of each kind go.
#[derive(Clone, Copy)]
pub(crate) struct Gone {
    pub vens: u64,
    pub resources: u64,
    pub shares: u64,
    pub reports: u64,
    pub subs: u64,
    pub frozen: u64,
}

/// No more than a share, where it is there.
pub(crate) fn one_share(is_there: bool) -> Gone
    ensures { result ≡ record none_gone { shares = if is_there then 1 else 0 } }
{
    Gone {
        vens: 0,
        resources: 0,
        shares: if is_there { 1 } else { 0 },
        reports: 0,
        subs: 0,
        frozen: 0,
    }
}

/// No more than a report.
pub(crate) fn one_report() -> Gone
    ensures { result ≡ record none_gone { reports = 1 } }
{
    Gone {
        vens: 0,
        resources: 0,
        shares: 0,
        reports: 1,
        subs: 0,
        frozen: 0,
    }
}

/// No more than a subscription.
pub(crate) fn one_sub() -> Gone
    ensures { result ≡ record none_gone { subs = 1 } }
{
    Gone {
        vens: 0,
        resources: 0,
        shares: 0,
        reports: 0,
        subs: 1,
        frozen: 0,
    }
}

/// Counts those that go no more.
pub(crate) fn count_gone(meta: &mut Meta, gone: Gone) -> Result<(), Refusal>
    ensures less { OnOk result (IsLess gone meta.old meta.new) }
    ensures refused { IfErr result IsOfStore }
{
    meta.vens = left(meta.vens, gone.vens)?;
    meta.resources = left(meta.resources, gone.resources)?;
    meta.shares = left(meta.shares, gone.shares)?;
    meta.reports = left(meta.reports, gone.reports)?;
    meta.subs = left(meta.subs, gone.subs)?;
    meta.frozen = left(meta.frozen, gone.frozen)?;
    Ok(())
}
