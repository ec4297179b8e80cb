//! What the log is told of rounds. No contract says anything of it.
use crate::account::Account;
use crate::counted::Counted;
use crate::object_log::ObjectLog;
use crate::page::{PageRead, PollEnd};
use crate::polling::MOST_PAGES;
use crate::watch::Watch;
use adr_link::{HttpReply, LinkFault};
use adr_log::Stopwatch;
use adr_machine::Command;
use adr_objects::{Found, Kind};
use adr_state::MirrorKey;
use adr_text::Refusal;
use log::{Log, debug, error, info, warn};
use std::alloc::Global;
use std::fmt;
use std::fmt::{Display, Formatter};
use std::time::Clock;

/// The page that was asked for last.
#[derive(Clone, Copy)]
struct Page {
    kind: Kind,
    skip: u64,
}

impl Display for Page {
    fn fmt<W: fmt::Write>(&self, f: &mut Formatter<W>) -> fmt::Result {
        let path = match self.kind {
            Kind::Program => "/programs",
            Kind::Event => "/events",
        };
        write!(f, "{path}?skip={}", self.skip)
    }
}

/// That page, or that there was none yet.
#[derive(Clone, Copy)]
struct Asked(Option<Page>);

impl Display for Asked {
    fn fmt<W: fmt::Write>(&self, f: &mut Formatter<W>) -> fmt::Result {
        match self.0 {
            Some(page) => write!(f, "{page}"),
            None => f.write_str("none"),
        }
    }
}

/// Why a round broke off.
#[derive(Clone, Copy)]
enum Broke {
    /// A command was refused.
    Refused(Refusal),
    /// The last page did not come.
    Account(Account),
    /// It came, and is none.
    NoList,
    /// So many pages of a kind were not all.
    ManyPages,
}

impl Display for Broke {
    fn fmt<W: fmt::Write>(&self, f: &mut Formatter<W>) -> fmt::Result {
        match *self {
            Broke::Refused(refusal) => {
                write!(f, "refused {} {}", refusal.number(), refusal.title())
            }
            Broke::Account(account) => write!(f, "{account}"),
            Broke::NoList => f.write_str("not a JSON list"),
            Broke::ManyPages => write!(f, "{MOST_PAGES} pages"),
        }
    }
}

/// So many seconds, or that there was nothing yet.
#[derive(Clone, Copy)]
struct Since(Option<u64>);

impl Display for Since {
    fn fmt<W: fmt::Write>(&self, f: &mut Formatter<W>) -> fmt::Result {
        match self.0 {
            Some(seconds) => write!(f, "{seconds}"),
            None => f.write_str("never"),
        }
    }
}

/// What a round went through so far.
#[derive(Clone, Copy)]
struct Seen {
    pages: u64,
    objects: u64,
    skipped: u64,
    probes: u64,
    /// Of these those that the gate didn't let through, since there are too many.
    withheld: u64,
    page: Option<Page>,
    account: Account,
    /// Whether the last page was one.
    is_read: bool,
    counted: Counted,
}

impl Seen {
    fn nothing() -> Seen {
        Seen {
            pages: 0,
            objects: 0,
            skipped: 0,
            probes: 0,
            withheld: 0,
            page: None,
            account: Account::Untold,
            is_read: false,
            counted: Counted::none(),
        }
    }

    // Counts what stands on a page: versions, and elements that are none.
    fn count(&mut self, versions: u64, skipped: u64) {
        self.objects = self.objects.saturating_add(versions);
        self.skipped = self.skipped.saturating_add(skipped);
    }

    // Why a round that ended like this broke off.
    fn broke(&self, end: &Result<PollEnd, Refusal>) -> Broke {
        match (end, self.account) {
            (Err(refusal), _) => Broke::Refused(*refusal),
            (Ok(_), Account::Status(200)) if self.is_read => Broke::ManyPages,
            (Ok(_), Account::Status(200)) => Broke::NoList,
            (Ok(_), account) => Broke::Account(account),
        }
    }
}

/// Watches rounds, and tells the log of them.
#[derive(Drop)]
pub struct RoundLog<'r, R: Log + Clock> {
    rt: &'r R,
    begun: Stopwatch,
    /// When the last whole round ended.
    whole: Option<Stopwatch>,
    seen: Seen,
    objects: ObjectLog,
}

impl<'r, R: Log + Clock> RoundLog<'r, R> {
    /// There was no round yet.
    pub fn new(rt: &'r R, alloc: Global) -> RoundLog<'r, R> {
        RoundLog {
            rt,
            begun: Stopwatch::start(rt),
            whole: None,
            seen: Seen::nothing(),
            objects: ObjectLog::new(alloc),
        }
    }

    /// A round begins.
    pub(crate) fn begin(&mut self) {
        self.begun = Stopwatch::start(self.rt);
        self.seen = Seen::nothing();
    }

    // A page had these versions among so many elements, and these bytes.
    fn filled(&mut self, kind: Kind, found: &[Found], elements: u64, body: &[u8]) {
        let versions = found.len() as u64;
        let skipped = elements.saturating_sub(versions);
        self.seen.count(versions, skipped);
        self.objects.page(self.rt, kind, found, skipped, body);
    }

    /// What its commands came to.
    pub(crate) fn count(&mut self, counted: Counted) {
        self.seen.counted = counted;
    }

    /// It ended like this.
    pub(crate) fn end(&mut self, end: &Result<PollEnd, Refusal>) {
        let ms = self.begun.millis(self.rt);
        let since = Since(self.whole.map(|whole| whole.millis(self.rt) / 1_000));
        match end {
            Ok(PollEnd::Whole) if 0 < self.seen.withheld => {
                tell_withheld(self.rt, &self.seen, ms, since);
            }
            Ok(PollEnd::Whole) => {
                tell_whole(self.rt, &self.seen, ms, since);
                self.whole = Some(Stopwatch::start(self.rt));
            }
            _ => tell_broken(self.rt, &self.seen, self.seen.broke(end), ms, since),
        }
    }
}

impl<R: Log + Clock> Watch for RoundLog<'_, R> {
    fn page(
        &mut self,
        kind: Kind,
        skip: u64,
        account: Account,
        came: &Result<HttpReply, LinkFault>,
        page: &PageRead,
    ) {
        self.seen.page = Some(Page { kind, skip });
        self.seen.account = account;
        self.seen.pages = self.seen.pages.saturating_add(1);
        self.seen.is_read = !matches!(page, PageRead::Failed);
        match (page, came) {
            (PageRead::Filled(Command::Evidence { found, polled: _ }, elements), Ok(reply)) => {
                self.filled(kind, found.as_slice(), *elements, reply.body.as_slice());
            }
            _ => (),
        }
    }

    fn probe(&mut self, key: &MirrorKey, account: Account, _came: &Result<HttpReply, LinkFault>) {
        if let Account::Withheld = account {
            self.seen.withheld = self.seen.withheld.saturating_add(1);
            return;
        }
        self.seen.probes = self.seen.probes.saturating_add(1);
        let id = key.id.as_str();
        debug!(self.rt; target: "round", id; "probe: {account}");
    }
}

fn tell_whole<R: Log>(rt: &R, seen: &Seen, ms: u64, since: Since) {
    let Counted {
        changes,
        versions: _,
        deletions,
    } = seen.counted;
    info!(
        rt; target: "round",
        pages = seen.pages, objects = seen.objects, skipped = seen.skipped, changes, probes = seen.probes, deletions, ms, since:%;
        "whole"
    );
}

fn tell_broken<R: Log>(rt: &R, seen: &Seen, why: Broke, ms: u64, since: Since) {
    let page = Asked(seen.page);
    warn!(rt; target: "round", page:%, pages = seen.pages, ms, since:%; "broke: {why}");
}

fn tell_withheld<R: Log>(rt: &R, seen: &Seen, ms: u64, since: Since) {
    error!(
        rt; target: "round",
        pages = seen.pages, objects = seen.objects, missed = seen.withheld, ms, since:%;
        "withheld: more than half of what is live stands on no page, and is asked for only where the next whole round finds that too"
    );
}
