//! The programs of a resource, by its shares.
ghost use Rattle.std.specs.Prelude.{◌≡◌, map, IfOk, IfErr};
ghost use Rattle.adr_sql.specs.Calls.{LeavesLent};
ghost use Rattle.adr_text.specs.declared.refusal.Refusal.TheVariants.{OutOfMemory};
ghost use Rattle.adr_db.specs.Calls.{Finds, IsOfStore};
ghost use Rattle.adr_touched.specs.Answers.{programs_of};

use adr_db_portfolio::read_shares_of;
use adr_objects::Number;
use adr_state::ShareKey;
use adr_text::{ObjectId, Refusal, Rows};
use sqlite::{Alter, Transaction};
use std::alloc::Global;

// The programs of shares, in the order of these.
fn programs_in(alloc: Global, keys: Rows<ShareKey>) -> Result<Rows<ObjectId>, Refusal>
    ensures programs { IfOk result (λ programs. programs ≡ map (λ key. key.program) keys) }
    ensures refused { IfErr result (λ refusal. refusal ≡ OutOfMemory) }
{
    let mut programs = Rows::new(alloc);
    'keys: for key in keys.into_vec() {
        programs.push(key.program)?;
    }
    Ok(programs)
}

/// The programs in which a resource has a share, by the bytes of their ids.
pub fn programs_of_resource<S: Alter>(
    alloc: Global,
    tx: &mut Transaction<'_, S>,
    resource: Number,
) -> Result<Rows<ObjectId>, Refusal>
    ensures lent { LeavesLent S.Store tx.old.conn tx.new.conn result }
    ensures finds { Finds S.Store tx.old.conn.now tx.new.conn.now (λ kept programs. programs ≡ programs_of resource kept.portfolio) result }
    ensures refused { IfErr result IsOfStore }
{
    let keys = read_shares_of(alloc, tx, resource)?;
    programs_in(alloc, keys)
}
