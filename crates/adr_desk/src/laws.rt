//! What is true of each desk, of each in memory, and of what a crash leaves.
ghost use Rattle.std.specs.Prelude.{◌≡◌, false};
ghost use Rattle.sqlite.specs.Held.{state};
ghost use Rattle.adr_desk.specs.Laws.{MemoryStands, SoundIsHeld, LeavesLastCommit, StopsLeaveSteps, StopsLeaveVersions};

use crate::desk::SqlDesk;
use sqlite::{Alter, Connection};

/// The store of a desk in memory is always open and gave back what was written. So a desk in memory that is sound stays so,
/// and after each refusal it holds what it held.
pub fn memory_stands()
    ensures { MemoryStands }
{}

/// The tables of a sound desk hold its state.
pub fn sound_is_held<S: Alter>(desk: &SqlDesk<S>)
    ensures { SoundIsHeld S.Store desk.now }
{}

/// While a store is open, a crash leaves the last commit and nothing else.
pub fn last_commit_is_left<S: Alter>(conn: &Connection<S>)
    ensures { LeavesLastCommit (state S.Store conn.now) }
{}

/// Whatever a stop leaves of a sound desk, at any moment of a command or behind it, has the state before the command, or the one
/// after it.
pub fn stops_leave_steps<S: Alter>(desk: &SqlDesk<S>)
    ensures { StopsLeaveSteps S.Store desk.now }
{
    sound_is_held(desk);
    desk.rests();
}

/// Whatever a stop leaves of tables that were kept, while they are made ready or behind that, has the state that they held, in
/// version 1 or in that of today.
pub fn stops_leave_versions<S: Alter>(conn: &Connection<S>)
    requires { conn.now.in_transaction ≡ false }
    ensures { StopsLeaveVersions S.Store conn.now }
{
    last_commit_is_left(conn);
    let is_settled = conn.is_autocommit();
    prove!(is_settled);
}
