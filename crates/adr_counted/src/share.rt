//! Shares, counted.
ghost use Rattle.std.specs.Prelude.{◌≡◌, ◌+◌, is_some, if◌then◌else◌, IfErr, OnOk};
ghost use Rattle.adr_state.specs.Keys.{share_cmp, at};
ghost use Rattle.adr_state.specs.Portfolios.{PutShare, DropShare};
ghost use Rattle.adr_sql.specs.Calls.{LeavesLent};
ghost use Rattle.adr_db.specs.Calls.{IsOfStore};
ghost use Rattle.adr_db.specs.BaseCalls.{Counts};

use crate::counts::with_put;
use crate::gone::{count_gone, one_share};
use adr_db::Meta;
use adr_db_portfolio as tables;
use adr_state::{ShareKey, Weight};
use adr_text::Refusal;
use sqlite::{Alter, Transaction};

// One more, where none is there yet.
fn count_put(meta: &mut Meta, is_there: bool) -> Result<(), Refusal>
    ensures counts { OnOk result (meta.new ≡ record meta.old { shares = if is_there then meta.old.shares else meta.old.shares + 1 }) }
    ensures refused { IfErr result IsOfStore }
{
    meta.shares = with_put(meta.shares, is_there)?;
    Ok(())
}

/// Puts the weight of a share, of which the caller knows whether it is there.
pub fn put_share<S: Alter>(
    tx: &mut Transaction<'_, S>,
    meta: &mut Meta,
    key: &ShareKey,
    weight: Weight,
    is_there: bool,
) -> Result<(), Refusal>
    ensures lent { LeavesLent S.Store tx.old.conn tx.new.conn result }
    ensures counts { Counts S.Store tx.old.conn.now tx.new.conn.now (PutShare key.now weight) (λ p. is_there ≡ is_some (at share_cmp key.now p.shares)) meta.old meta.new result }
    ensures refused { IfErr result IsOfStore }
{
    count_put(meta, is_there)?;
    tables::put_share(tx, key, weight)
}

/// The share goes, of which the caller knows whether it is there.
pub fn remove_share<S: Alter>(
    tx: &mut Transaction<'_, S>,
    meta: &mut Meta,
    key: &ShareKey,
    is_there: bool,
) -> Result<(), Refusal>
    ensures lent { LeavesLent S.Store tx.old.conn tx.new.conn result }
    ensures counts { Counts S.Store tx.old.conn.now tx.new.conn.now (DropShare key.now) (λ p. is_there ≡ is_some (at share_cmp key.now p.shares)) meta.old meta.new result }
    ensures refused { IfErr result IsOfStore }
{
    count_gone(meta, one_share(is_there))?;
    tables::remove_share(tx, key)
}
