//! Laws of the outbox over whole runs: leases, what settles an entry, which entry leaves next, what each count counts, and what is told of changes.
ghost use Rattle.adr_outbox_laws.specs.Leases.{OneLeaseEach, LeasedHadNoLease, LeaseIsRefusedAtTheLimit, SettledByItsLease, EarlierLeasesAreLost};
ghost use Rattle.adr_outbox_laws.specs.Next.{NextIsFirst, NextIsFirstAfterRuns};
ghost use Rattle.adr_outbox_laws.specs.Counts.{EachCountTells};
ghost use Rattle.adr_outbox_laws.specs.Told.{ChangesAreWhatHappens, DeliveriesTellNothing, EachChangeIsTold, EachChangeIsToldAfterRuns};

/// Of entries whose numbers rise the next one at a moment is exactly the one of least number among those that wait, are
/// due, have no lease that lasts past the moment, and have no entry of a smaller number and the same destination before
/// them; and there is none exactly where there is no such entry. So it is after any run from an empty start.
pub fn next_is_first()
    ensures entries { NextIsFirst }
    ensures run { NextIsFirstAfterRuns }
{}

/// After any run from an empty start and at any moment, at most one entry of a destination has a lease that lasts past the
/// moment, and that one is the first that waits of its destination.
pub fn one_lease_each()
    ensures { OneLeaseEach }
{}

/// After any run from an empty start, a `Lease` that is accepted gives the next entry: it waited, was due, had no lease
/// that lasts past the moment, and was the first of its destination, and it waits then with the lease of 30 seconds whose
/// number the answer names. Where nothing is given no entry may go, and nothing has changed. It is refused only with
/// `Exhausted`, where the next entry had as many leases as there may be.
pub fn leased_had_no_lease()
    ensures given { LeasedHadNoLease }
    ensures refused { LeaseIsRefusedAtTheLimit }
{}

/// Whatever the state, `Sent` and `Failed` are accepted exactly where an entry of that number waits whose lease has the
/// number that the command names: the last lease that was given of it, even one that has ended, unless a failure took it
/// back. With any other number, or for an entry that does not wait, they are refused with `LeaseLost`, and nothing has
/// changed.
pub fn settled_by_its_lease()
    ensures { SettledByItsLease }
{}

/// Where after any run from an empty start an entry is leased, and leased again after whatever commands, the second lease
/// has a greater number, so no two leases of an entry have one; and whatever commands follow, `Sent` and `Failed` that name
/// the first are refused with `LeaseLost`.
pub fn earlier_leases_are_lost()
    ensures { EarlierLeasesAreLost }
{}

/// The changes between two views are exactly what happens at their keys, in the order of these, each once: something
/// appears, differs or goes; that a roll-up goes is no change.
pub fn changes_are_what_happens()
    ensures { ChangesAreWhatHappens }
{}

/// Where what is shown is stamped, each change of it from before a command to after it is told: a roll-up by one entry to
/// the utility, and anything else by one entry for each subscription that matches it, in the order of their numbers. After
/// any run from an empty start and one more accepted command that is not about an entry, those wait that waited before it
/// and whose subscription is there still, and behind them the entries of each change, in the order of the changes,
/// numbered one after another from the serial on. A command about an entry tells nothing.
pub fn each_change_is_told()
    ensures changes { EachChangeIsTold }
    ensures run { EachChangeIsToldAfterRuns }
    ensures deliveries { DeliveriesTellNothing }
{}

/// Whatever the state, an accepted `Sent` raises the count of what was sent by one, and no other command changes it; what was
/// given up is changed by `Failed` alone; what was dropped is raised by a command that is not about an entry, by as many as
/// waited for a subscription that is not there after it, and left by any other; and what was made is changed by no command
/// about an entry. What is raised stops at what a count stops at.
pub fn each_count_tells()
    ensures { EachCountTells }
{}
