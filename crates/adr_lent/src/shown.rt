//! The table `shown`, one statement for each column that shown events are picked by, whose rows are lent.
ghost use Rattle.std.specs.Prelude.{◌≡◌, IfOk};
ghost use Rattle.std.specs.Borrow.{sem, RestsIfErr};
ghost use Rattle.sqlite_value.specs.Value.{owned};
ghost use Rattle.sqlite.specs.contracts.connection.Connection.{the_row};
ghost use Rattle.adr_lent.specs.Lent.{Begins, Stands};
ghost use Rattle.adr_lent.specs.Selections.{Selects};
ghost use Rattle.adr_lent.specs.Picks.{text_for, key_cell, limit_cell, skip_cell, picked_row, part_rows};

use crate::picked::Picked;
use crate::stream::lend;
use adr_queries::Page;
use sqlite::types::{ToSql, ValueRef};
use sqlite::{Alter, Connection, Error, Rows};

const READ_ALL: &str =
    "SELECT event, resource, program, ven, ven_name, resource_name, body FROM shown ORDER BY event, resource LIMIT ?2 OFFSET ?3";

const READ_OF_VEN: &str =
    "SELECT event, resource, program, ven, ven_name, resource_name, body FROM shown WHERE ven = ?1 ORDER BY event, resource LIMIT ?2 OFFSET ?3";

const READ_OF_PROGRAM: &str =
    "SELECT event, resource, program, ven, ven_name, resource_name, body FROM shown WHERE program = ?1 ORDER BY event, resource LIMIT ?2 OFFSET ?3";

const READ_OF_VEN_NAME: &str =
    "SELECT event, resource, program, ven, ven_name, resource_name, body FROM shown WHERE ven_name = ?1 ORDER BY event, resource LIMIT ?2 OFFSET ?3";

const READ_OF_RESOURCE_NAME: &str =
    "SELECT event, resource, program, ven, ven_name, resource_name, body FROM shown WHERE resource_name = ?1 ORDER BY event, resource LIMIT ?2 OFFSET ?3";

fn text_for(picked: &Picked) -> &'static str
    ensures { result.now ≡ text_for picked.now }
{
    match picked {
        Picked::All => READ_ALL,
        Picked::OfVen(_) => READ_OF_VEN,
        Picked::OfProgram(_) => READ_OF_PROGRAM,
        Picked::OfVenName(_) => READ_OF_VEN_NAME,
        Picked::OfResourceName(_) => READ_OF_RESOURCE_NAME,
    }
}

// What they have in that column. A number past what SQL counts is refused.
fn key_cell(picked: &Picked) -> Result<ValueRef<'_>, Error>
    ensures { IfOk result (λ key. owned key ≡ key_cell picked.now) }
{
    match picked {
        Picked::All => Ok(ValueRef::Null),
        Picked::OfVen(ven) => match i64::try_from(ven.get()) {
            Ok(ven) => Ok(ValueRef::Int(ven)),
            Err(_) => Err(Error::IntegralValueOutOfRange(0)),
        },
        Picked::OfProgram(program) => Ok(program.as_str().to_sql()),
        Picked::OfVenName(name) => Ok(name.as_str().to_sql()),
        Picked::OfResourceName(name) => Ok(name.as_str().to_sql()),
    }
}

// Below 0 there is no limit.
fn limit_cell(part: Option<Page>) -> ValueRef<'static>
    ensures { owned result ≡ limit_cell part }
{
    match part {
        Some(page) => page.limit.to_sql(),
        None => ValueRef::Int(-1),
    }
}

fn skip_cell(part: Option<Page>) -> ValueRef<'static>
    ensures { owned result ≡ skip_cell part }
{
    match part {
        Some(page) => page.skip.to_sql(),
        None => ValueRef::Int(0),
    }
}

/// What is kept of those that are picked, by the bytes of the upstream ids and then by the numbers of the resources: all of it,
/// or one page, and then the store need not hand out those before it. The indexes of a ven and of a program have their rows
/// together and in this order, so that the store need read no row of another, which no contract can say.
pub(crate) fn lend_picked<'conn, S: Alter>(
    conn: &'conn mut Connection<S>,
    picked: &Picked,
    part: Option<Page>,
) -> Result<Rows<'conn, S>, Error>
    ensures* refused { sem 𝓛 (RestsIfErr (the_row S.row S.Store) conn.entry (λ rows. rows.conn.ghost_name) result (Stands S.Store conn.old)) }
    ensures same_reference { IfOk result (λ rows. rows.conn.ghost_name ≡ conn.entry.ghost_name) }
    ensures begun { IfOk result (λ rows. Begins S.Store (text_for picked.now) (picked_row picked.now part) conn.old rows.conn.now) }
    ensures selects { Selects S.Store (text_for picked.now) (picked_row picked.now part) (part_rows picked.now part) conn.old }
{
    let key = match key_cell(picked) {
        Ok(key) => key,
        Err(error) => return Err(error),
    };
    lend(
        conn,
        text_for(picked),
        &[key, limit_cell(part), skip_cell(part)],
    )
}
