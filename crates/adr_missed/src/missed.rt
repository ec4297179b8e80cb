//! The keys that an open scan missed.
ghost use Rattle.std.specs.Prelude.{IsTrue, ◌≡◌, ◌⊎◌, OnOk, IfErr};
ghost use Rattle.sqlite.specs.Held.{state};
ghost use Rattle.sqlite.specs.State.{HasCleanDisk};
ghost use Rattle.adr_text.specs.declared.refusal.Refusal.TheVariants.{NoScan};
ghost use Rattle.adr_sql.specs.Calls.{LeavesLent};
ghost use Rattle.adr_text.specs.Refusals.{IsRefusalOf};
ghost use Rattle.adr_state.specs.declared.base.Base.{Base};
ghost use Rattle.adr_db.specs.Bases.{with_base};
ghost use Rattle.adr_db.specs.Calls.{IsOfStore};
ghost use Rattle.adr_lent.specs.Lent.{Stands};
ghost use Rattle.adr_missed.specs.Missed.{missed, TellsOn};
ghost use Rattle.adr_missed.specs.Shut.{ShutsWith};

use crate::unseen::unseen_keys;
use adr_db::Meta;
use adr_db_mirror::clear_polled;
use adr_state::MirrorKey;
use adr_text::{Refusal, Rows};
use sqlite::{Alter, Connection, Transaction};
use std::alloc::Global;

/// The live keys outside the set of polled ones, programs before events, each by the bytes of its id; with a limit the first
/// of them, at most so many. Refused with `NoScan` where no scan is open. The numbers of the node are handed in; what refuses
/// by them refuses for each base whose numbers they are, whatever the tables hold.
pub fn probes<S: Alter>(
    alloc: Global,
    conn: &mut Connection<S>,
    meta: &Meta,
    limit: Option<u32>,
) -> Result<Rows<MirrorKey>, Refusal>
    ensures tells { TellsOn S.Store conn.old conn.new (missed limit) meta.now result }
    ensures refuses { IfErr result (λ refusal. (base : Base) → meta.now ≡ with_base meta.now base → IsRefusalOf refusal (missed limit base)) }
    ensures was_open { HasCleanDisk (state S.Store conn.new) → OnOk result (IsTrue (state S.Store conn.old).is_open) }
    ensures stands { Stands S.Store conn.old conn.new }
    ensures refused { IfErr result (λ refusal. IsOfStore refusal ⊎ (refusal ≡ NoScan)) }
{
    Refusal::NoScan.unless(meta.scan)?;
    unseen_keys(alloc, conn, limit)
}

/// Closes the scan that missed these keys, which were read before the transaction began. The numbers of the node are handed in,
/// and are left as the caller has to put them.
pub fn scan_shut<S: Alter>(
    tx: &mut Transaction<'_, S>,
    meta: &mut Meta,
    keys: Rows<MirrorKey>,
) -> Result<Rows<MirrorKey>, Refusal>
    ensures lent { LeavesLent S.Store tx.old.conn tx.new.conn result }
    ensures shuts { ShutsWith S.Store tx.old.conn.now tx.new.conn.now meta.old meta.new keys result }
    ensures refused { IfErr result IsOfStore }
{
    meta.scan = false;
    clear_polled(tx)?;
    Ok(keys)
}
