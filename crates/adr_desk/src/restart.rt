//! From one run to the next: a desk over what an earlier one left.
ghost use Rattle.std.specs.Prelude.{◌≡◌, false, Ok, IsTrue, IfSome};
ghost use Rattle.sqlite.specs.Held.{state};
ghost use Rattle.sqlite.specs.State.{HasCleanDisk};
ghost use Rattle.sqlite.specs.Files.{over_files};
ghost use Rattle.adr_desk.specs.Desks.{shown, state_of, IsSound};
ghost use Rattle.adr_desk.specs.Restarts.{Finds, FindsLeft};

use crate::desk::SqlDesk;
use crate::laws::sound_is_held;
use crate::ready::Start;
use adr_held::laws::{first_left_is_held, left_is_held};
use adr_machine::Settings;
use sqlite::{Alter, Connection, FileStore, Options};
use sqlite_disk::Disk;
use sqlite_trees::store::Reopen;
use std::alloc::Global;

/// A desk over tables that a crash or a close left.
fn over_left<S: Alter + Drop>(
    alloc: Global,
    settings: Settings,
    conn: Connection<S>,
) -> Option<SqlDesk<S>>
    requires { conn.in_transaction ≡ false }
    ensures { IfSome result (λ again. HasCleanDisk (shown S.Store again) → IsTrue (shown S.Store again).is_open → HasCleanDisk (state S.Store conn) × (IsTrue (state S.Store conn).is_open → FindsLeft S.Store (state S.Store conn).now.trees again)) }
{
    left_is_held(&conn);
    first_left_is_held(&conn);
    match SqlDesk::adopt(alloc, settings, conn, Start::Kept) {
        Ok(again) => Some(again),
        Err(_) => None,
    }
}

/// A crash, at some moment of what was done to a database or after it, and a desk over what is left: it holds the state that
/// this was left with.
fn crash_of<S: Alter + Reopen + Drop>(
    alloc: Global,
    settings: Settings,
    conn: Connection<S>,
) -> Option<SqlDesk<S>>
    ensures { IfSome result (λ again. HasCleanDisk (shown S.Store again) → IsTrue (shown S.Store again).is_open → HasCleanDisk (state S.Store conn) × Finds S.Store (state S.Store conn).may_leave again) }
{
    let mut store = conn.into_store();
    if store.crash_and_reopen().is_err() {
        return None;
    }
    match Connection::over(alloc, store) {
        Ok(conn) => over_left(alloc, settings, conn),
        Err(_) => None,
    }
}

/// A crash, at some moment of what the desk did or after it, and the desk over what is left: it holds the state that this
/// was left with.
pub fn crash<S: Alter + Reopen + Drop>(alloc: Global, desk: SqlDesk<S>) -> Option<SqlDesk<S>>
    ensures { IfSome result (λ again. HasCleanDisk (shown S.Store again) → IsTrue (shown S.Store again).is_open → HasCleanDisk (shown S.Store desk) × Finds S.Store (shown S.Store desk).may_leave again) }
{
    let (settings, conn) = desk.into_parts();
    crash_of(alloc, settings, conn)
}

/// The files are closed and opened again, and the desk over them has the state that the first one had.
pub fn reopen<D: Disk + Drop>(
    alloc: Global,
    desk: SqlDesk<FileStore<D>>,
    options: Options,
) -> Option<SqlDesk<FileStore<D>>>
    ensures { IfSome result (λ again. HasCleanDisk (shown over_files again) → IsTrue (shown over_files again).is_open → IsSound over_files desk
        → ∥ (IsSound over_files again × (state_of over_files again ≡ state_of over_files desk)) ∥₁) }
{
    sound_is_held(&desk);
    desk.rests();
    let (settings, conn) = desk.into_parts();
    let files = match conn.close_files() {
        Ok(files) => files,
        Err((_, store)) => {
            drop(store.close());
            return None;
        }
    };
    match Connection::open_files(alloc, files, options) {
        Ok(conn) => over_left(alloc, settings, conn),
        Err(_) => None,
    }
}
