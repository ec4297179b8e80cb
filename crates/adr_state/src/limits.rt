//! How many objects the node keeps, and what it is set to.
ghost use Rattle.std.specs.Prelude.{◌≡◌, ◌≤◌, is_some, unwrap_or, IfOk};
ghost use Rattle.adr_state.specs.Within.{where_within};

use adr_text::Name;
use std::alloc::AllocError;
use std::marker::Model;

/// A limit, from 1 up to its largest, `MOST`.
#[derive(Clone, Copy, PartialEq, Eq)]
pub struct Limit<const MOST: u64> {
    value: u64,
}

impl<const MOST: u64> Model for Limit<MOST> {
    ghost use Rattle.std.specs.Prelude.{ℕ, ◌≤◌};

    ghost Value = { ℕ };

    ghost view = { λ a. a.value };

    ghost invariant = { λ a. (1 ≤ a.value) × (a.value ≤ MOST) };

    ghost inverse = { λ n. record { value = n } };
}

impl<const MOST: u64> Limit<MOST> {
    /// The limit of that value, if it is in range.
    pub fn new(value: u64) -> Option<Limit<MOST>>
        ensures { result ≡ where_within MOST value }
    {
        if value < 1 || MOST < value {
            return None;
        }
        Some(Limit { value })
    }

    /// The largest one.
    pub fn largest() -> Limit<MOST>
        requires { 1 ≤ MOST }
        ensures { result ≡ MOST }
    {
        Limit { value: MOST }
    }

    /// Its value.
    pub fn get(&self) -> u64
        ensures value { result ≡ self.now }
        ensures some { 1 ≤ self.now }
        ensures within { self.now ≤ MOST }
    {
        self.value
    }
}

/// The limits of a node.
#[derive(Clone, Copy, PartialEq, Eq)]
pub struct Limits {
    /// Keys of the mirror, those of deleted objects too.
    pub keys: Limit<100_000>,
    pub vens: Limit<1_000>,
    /// Subscriptions.
    pub subs: Limit<1_000>,
    pub resources: Limit<10_000>,
    pub shares: Limit<100_000>,
    pub reports: Limit<100_000>,
    /// Shares that are kept for frozen events.
    pub frozen: Limit<100_000>,
    /// Entries of the outbox.
    pub pending: Limit<100_000>,
    /// The largest number that is drawn.
    pub serial: Limit<9_000_000_000_000_000>,
    /// Commands in the trail.
    pub trail: Limit<1_000_000>,
}

/// What a node is set to.
#[derive(Clone)]
pub struct Settings {
    /// The name under which the node reports to the utility (OpenADR 3.0, clientName).
    pub client: Name,
    pub limits: Limits,
}

impl Drop for Settings {
    fn drop(self) {
        let Settings {
            client: _,
            limits: _,
        } = self;
    }
}

impl Settings {
    /// The same settings again.
    pub fn copy(&self) -> Result<Settings, AllocError>
        ensures { IfOk result (λ settings. settings ≡ self.now) }
    {
        self.clone()
    }
}

impl Limits {
    ghost use Rattle.adr_state.specs.Limits.{AreSmall, largest, limits_set};

    /// Each limit at its largest, which is the default.
    pub fn largest() -> Limits
        ensures { result ≡ largest }
    {
        Limits {
            keys: Limit::largest(),
            vens: Limit::largest(),
            subs: Limit::largest(),
            resources: Limit::largest(),
            shares: Limit::largest(),
            reports: Limit::largest(),
            frozen: Limit::largest(),
            pending: Limit::largest(),
            serial: Limit::largest(),
            trail: Limit::largest(),
        }
    }

    /// Each of them but `trail`, of which this says nothing, is at most its largest.
    pub fn are_small(&self)
        ensures { AreSmall self.now }
    {
        let _keys = self.keys.get();
        let _vens = self.vens.get();
        let _subs = self.subs.get();
        let _resources = self.resources.get();
        let _shares = self.shares.get();
        let _reports = self.reports.get();
        let _frozen = self.frozen.get();
        let _pending = self.pending.get();
        let _serial = self.serial.get();
    }

    /// Sets the limit of that name, from 1 up to its largest. For another name, or a number out of
    /// range, it answers false and changes nothing.
    pub fn set(&mut self, name: &str, value: u64) -> bool
        ensures answer { result ≡ is_some (limits_set name.now value self.old) }
        ensures after { self.new ≡ unwrap_or (limits_set name.now value self.old) self.old }
    {
        let Some(limits) = self.with(name, value) else {
            return false;
        };
        *self = limits;
        true
    }

    /// The limits with that of a name set.
    fn with(mut self, name: &str, value: u64) -> Option<Limits>
        ensures { result ≡ limits_set name.now value self }
    {
        match name {
            "keys" => self.keys = Limit::new(value)?,
            "vens" => self.vens = Limit::new(value)?,
            "subs" => self.subs = Limit::new(value)?,
            "resources" => self.resources = Limit::new(value)?,
            "shares" => self.shares = Limit::new(value)?,
            "reports" => self.reports = Limit::new(value)?,
            "frozen" => self.frozen = Limit::new(value)?,
            "pending" => self.pending = Limit::new(value)?,
            "serial" => self.serial = Limit::new(value)?,
            "trail" => self.trail = Limit::new(value)?,
            _ => return None,
        }
        Some(self)
    }
}
