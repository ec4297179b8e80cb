//! Scans: the keys that were polled since one began.
ghost use Rattle.std.specs.Prelude.{Ok, IfErr};
ghost use Rattle.adr_state.specs.Evidence.{scan_begin};
ghost use Rattle.adr_sql.specs.Calls.{LeavesLent};
ghost use Rattle.adr_db.specs.Calls.{IsOfStore};
ghost use Rattle.adr_db.specs.BaseCalls.{Makes};

use adr_db::Meta;
use adr_db_mirror::clear_polled;
use adr_text::Refusal;
use sqlite::{Alter, Transaction};

/// Opens a scan with an empty set of polled keys. An open one is replaced. The numbers of the node are handed
/// in, and are left as the caller has to put them.
pub fn scan_begin<S: Alter>(tx: &mut Transaction<'_, S>, meta: &mut Meta) -> Result<(), Refusal>
    ensures lent { LeavesLent S.Store tx.old.conn tx.new.conn result }
    ensures makes { Makes S.Store tx.old.conn.now tx.new.conn.now (λ _. Ok scan_begin) meta.old meta.new (λ _ _ _. Unit {0}) result }
    ensures refused { IfErr result IsOfStore }
{
    meta.scan = true;
    clear_polled(tx)
}
