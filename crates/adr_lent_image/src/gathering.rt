//! All rows of a query, gathered as they are lent.
ghost use Rattle.std.specs.Prelude.{◌≡◌, ⊤, fold, IfOk, OnOk, IfErr};
ghost use Rattle.std.specs.BTreeMap.{insert_entry};
ghost use Rattle.sqlite.specs.Held.{state};
ghost use Rattle.sqlite.specs.State.{HasCleanDisk};
ghost use Rattle.adr_state.specs.Keys.{map_of};
ghost use Rattle.adr_db.specs.Calls.{IsOfStore};
ghost use Rattle.adr_lent.specs.Lent.{Stands};
ghost use Rattle.adr_lent_image.specs.Gathered.{LendsAll};

use adr_db::reading::FromRow;
use adr_lent::next_of;
use adr_text::{Refusal, Table};
use sqlite::{Alter, Rows as LentRows};
use std::alloc::Global;

/// What values are gathered in, one after another.
pub trait Gathering<T>: Drop {
    ghost after: { Self → T → Self };

    /// One more value. Where it is refused nothing is said of what is left.
    fn gather(&mut self, alloc: Global, value: T) -> Result<(), Refusal>
        ensures gathered { OnOk result (self.new ≡ after self.old value) }
        ensures refused { IfErr result IsOfStore };
}

/// Each row as a key with its value, which is put in its place.
impl<K: Ord + Drop, V: Drop> Gathering<(K, V)> for Table<K, V> {
    ghost after = { λ table e. insert_entry K.cmp table e.0 e.1 };

    fn gather(&mut self, _: Global, value: (K, V)) -> Result<(), Refusal> {
        Ok(self.put(value.0, value.1)?)
    }
}

/// All rows of a query at its start, read and gathered one after another. Each is let go before the next one is lent.
pub fn gather_all<T: FromRow, G: Gathering<T>, S: Alter>(
    alloc: Global,
    rows: &mut LentRows<'_, S>,
    start: G,
) -> Result<G, Refusal>
    ensures same_reference { rows.new.conn.ghost_name ≡ rows.old.conn.ghost_name }
    ensures lends { HasCleanDisk (state S.Store rows.new.conn.now) → IfOk result (λ found. LendsAll S.Store T.reads rows.old.conn.now rows.new.conn.now (λ seen. found ≡ fold G.after start seen)) }
    ensures stands { Stands S.Store rows.old.conn.now rows.new.conn.now }
    ensures refused { IfErr result IsOfStore }
{
    let mut found = start;
    'rows: for _ in 0..u64::MAX {
        let Some(value) = next_of::<T, S>(alloc, rows)? else {
            return Ok(found);
        };
        found.gather(alloc, value)?;
    }
    Err(Refusal::Store)
}

/// Where rows are read and let go.
#[derive(Clone, Copy, Drop)]
pub struct Passed;

impl<T: Drop> Gathering<T> for Passed {
    ghost after = { λ passed value. passed };

    fn gather(&mut self, _: Global, value: T) -> Result<(), Refusal> {
        drop(value);
        Ok(())
    }
}

/// All rows of a query at its start, read one after another. Each is let go before the next one is lent, and nothing is kept.
pub fn read_each<T: FromRow, S: Alter>(
    alloc: Global,
    rows: &mut LentRows<'_, S>,
) -> Result<(), Refusal>
    ensures same_reference { rows.new.conn.ghost_name ≡ rows.old.conn.ghost_name }
    ensures lends { HasCleanDisk (state S.Store rows.new.conn.now) → OnOk result (LendsAll S.Store T.reads rows.old.conn.now rows.new.conn.now (λ seen. ⊤)) }
    ensures stands { Stands S.Store rows.old.conn.now rows.new.conn.now }
    ensures refused { IfErr result IsOfStore }
{
    gather_all::<T, Passed, S>(alloc, rows, Passed)?;
    Ok(())
}

/// All rows of a query at its start, as the map that they make.
pub fn lent_table<K: FromRow + Ord, V: FromRow, S: Alter>(
    alloc: Global,
    rows: &mut LentRows<'_, S>,
) -> Result<Table<K, V>, Refusal>
    ensures same_reference { rows.new.conn.ghost_name ≡ rows.old.conn.ghost_name }
    ensures lends { HasCleanDisk (state S.Store rows.new.conn.now) → IfOk result (λ table. LendsAll S.Store (λ row e. K.reads row e.0 × V.reads row e.1) rows.old.conn.now rows.new.conn.now (λ seen. table ≡ map_of K.cmp seen)) }
    ensures stands { Stands S.Store rows.old.conn.now rows.new.conn.now }
    ensures refused { IfErr result IsOfStore }
{
    gather_all::<(K, V), Table<K, V>, S>(alloc, rows, Table::new(alloc))
}
