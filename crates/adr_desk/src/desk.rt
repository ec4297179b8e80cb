//! The desk.
ghost use Rattle.std.specs.Prelude.{◌≡◌, ◌⊎◌, false, [], Ok, IsTrue, IfOk, IfErr, OnOk, OnErr};
ghost use Rattle.sqlite.specs.State.{HasCleanDisk, Survives};
ghost use Rattle.sqlite.specs.Held.{state};
ghost use Rattle.sqlite.specs.Tree.{Trees};
ghost use Rattle.sqlite.specs.Steps.{over_memory};
ghost use Rattle.adr_text.specs.Refusals.{IsRefusalOf};
ghost use Rattle.adr_text.specs.declared.refusal.Refusal.TheVariants.{BadFile};
ghost use Rattle.adr_state.specs.declared.state.State.{State};
ghost use Rattle.adr_state.specs.States.{empty};
ghost use Rattle.adr_held.specs.Held.{HoldsState, HoldsInEither, AreLeftWith};
ghost use Rattle.adr_db.specs.Calls.{IsOfStore};
ghost use Rattle.adr_queries.specs.Listed.{listed_for, IsListed};
ghost use Rattle.adr_machine.specs.Listed.{listed};
ghost use Rattle.adr_queries.specs.Replies.{reply};
ghost use Rattle.adr_machine.specs.Steps.{step, image_of};
ghost use Rattle.adr_desk.specs.Preparing.{Becomes, AreKnown};
ghost use Rattle.adr_desk.specs.declared.ready.Start.TheVariants.{Kept};
ghost use Rattle.adr_desk.specs.Inspected.{ReadsTables};
ghost use Rattle.adr_desk.specs.Since.{HoldsSince};
ghost use Rattle.adr_desk.specs.Steps.{step_by, LeftStepped};

use crate::ask::ask_in;
use crate::image::image_in;
use crate::inspect::inspect_in;
use crate::kept::keep;
use crate::laws::last_commit_is_left;
use crate::ready::{Start, prepare};
use crate::step::apply_in;
use adr_keepsake::Keepsake;
use adr_machine::{Answer, Command, Desk, Query};
use adr_state::{Image, Settings};
use adr_text::{Moment, Refusal};
use sqlite::{Alter, Connection, MemStore};
use std::alloc::Global;

/// Keeps the machine's state in a SQL database. Between calls no transaction stands. What the tables stored as the desk
/// was made is kept, for contracts alone: where that was a state, they hold one while the store is open.
#[derive(Drop)]
pub struct SqlDesk<S: Alter> {
    settings: Settings,
    conn: Connection<S>,
    first: Keepsake,
    alloc: Global,
    ghost idle: { conn.in_transaction ≡ false },
    ghost holds: { ∥ HoldsSince S.Store first.kept conn ∥₁ },
}

/// A desk in memory, which always stands (`laws::memory_stands`): one that is sound stays so.
pub type MemoryDesk = SqlDesk<MemStore>;

impl SqlDesk<MemStore> {
    ghost use Rattle.adr_desk.specs.Desks.{shown, settings_of, state_of, IsSound};

    /// A desk in memory, with the state at first, or want of memory or the store's refusal.
    pub fn open_memory(alloc: Global, settings: Settings) -> Result<MemoryDesk, Refusal>
        ensures state { IfOk result (λ desk. state_of over_memory desk ≡ empty) }
        ensures settings { IfOk result (λ desk. settings_of desk ≡ settings) }
        ensures sound { IfOk result (λ desk. IsSound over_memory desk) }
        ensures committed { IfOk result (λ desk. (shown over_memory desk).committed ≡ (shown over_memory desk).now) }
        ensures refused { IfErr result IsOfStore }
    {
        let conn = Connection::open_in_memory(alloc)?;
        SqlDesk::adopt(alloc, settings, conn, Start::New)
    }
}

impl<S: Alter + Drop> SqlDesk<S> {
    ghost use Rattle.adr_desk.specs.Desks.{shown, settings_of, state_of, IsSound};

    /// A desk over a database that is handed in, in which no transaction stands. It is sound where the tables of a new node
    /// were made in an empty one, and where those that were kept held a state: then that is its state. On a refusal the
    /// database is given back: what was committed stands, and a crash leaves what it could before, or what was to be
    /// written whole.
    pub fn adopt_or_back(
        alloc: Global,
        settings: Settings,
        mut conn: Connection<S>,
        start: Start,
    ) -> Result<SqlDesk<S>, (Refusal, Connection<S>)>
        requires { conn.in_transaction ≡ false }
        ensures settings { IfOk result (λ desk. settings_of desk ≡ settings) }
        ensures made { IfOk result (λ desk. HasCleanDisk (shown S.Store desk) → IsTrue (shown S.Store desk).is_open → (held : State) → Becomes start held (state S.Store conn) → IsSound S.Store desk × (state_of S.Store desk ≡ held)) }
        ensures known { IfOk result (λ desk. HasCleanDisk (shown S.Store desk) → start ≡ Kept → AreKnown (state S.Store conn)) }
        ensures committed { IfOk result (λ desk. HasCleanDisk (shown S.Store desk) → (shown S.Store desk).committed ≡ (shown S.Store desk).now) }
        ensures crash { IfOk result (λ desk. Survives (state S.Store conn) (shown S.Store desk) (λ trees. (held : State) → Becomes start held (state S.Store conn) → AreLeftWith held trees)) }
        ensures undone { IfErr result (λ e. HasCleanDisk (state S.Store e.1) → IsTrue (state S.Store e.1).is_open → (state S.Store e.1).committed ≡ (state S.Store conn).committed) }
        ensures back { IfErr result (λ e. Survives (state S.Store conn) (state S.Store e.1) (λ trees. (held : State) → Becomes start held (state S.Store conn) → AreLeftWith held trees)) }
        ensures over { IfErr result (λ e. e.1.in_transaction ≡ false) }
        ensures listed { IfErr result (λ e. IsOfStore e.0 ⊎ ((e.0 ≡ BadFile) × (start ≡ Kept))) }
        ensures unknown { IfErr result (λ e. HasCleanDisk (state S.Store e.1) → e.0 ≡ BadFile → (held : State) → ¬ HoldsInEither held (state S.Store conn)) }
    {
        match prepare(&mut conn, start) {
            Ok(()) => {
                let first = keep(&conn);
                Ok(SqlDesk {
                    settings,
                    conn,
                    first,
                    alloc,
                })
            }
            Err(refusal) => Err((refusal, conn)),
        }
    }

    /// The same, where on a refusal the database is given up.
    pub fn adopt(
        alloc: Global,
        settings: Settings,
        conn: Connection<S>,
        start: Start,
    ) -> Result<SqlDesk<S>, Refusal>
        requires { conn.in_transaction ≡ false }
        ensures settings { IfOk result (λ desk. settings_of desk ≡ settings) }
        ensures made { IfOk result (λ desk. HasCleanDisk (shown S.Store desk) → IsTrue (shown S.Store desk).is_open → (held : State) → Becomes start held (state S.Store conn) → IsSound S.Store desk × (state_of S.Store desk ≡ held)) }
        ensures known { IfOk result (λ desk. HasCleanDisk (shown S.Store desk) → start ≡ Kept → AreKnown (state S.Store conn)) }
        ensures committed { IfOk result (λ desk. HasCleanDisk (shown S.Store desk) → (shown S.Store desk).committed ≡ (shown S.Store desk).now) }
        ensures crash { IfOk result (λ desk. Survives (state S.Store conn) (shown S.Store desk) (λ trees. (held : State) → Becomes start held (state S.Store conn) → AreLeftWith held trees)) }
        ensures listed { IfErr result (λ refusal. IsOfStore refusal ⊎ ((refusal ≡ BadFile) × (start ≡ Kept))) }
    {
        match SqlDesk::adopt_or_back(alloc, settings, conn, start) {
            Ok(desk) => Ok(desk),
            Err((refusal, _)) => Err(refusal),
        }
    }
}

impl<S: Alter> SqlDesk<S> {
    ghost use Rattle.adr_desk.specs.Desks.{shown, settings_of, state_of, IsSound, Stands};

    /// Until the next call a crash leaves what a sound desk holds, and nothing else.
    pub fn rests(&self)
        ensures leaves { IsSound S.Store self.now → (trees : Trees) → (shown S.Store self.now).may_leave trees → trees ≡ (shown S.Store self.now).now.trees }
        ensures committed { IsSound S.Store self.now → (shown S.Store self.now).committed ≡ (shown S.Store self.now).now }
    {
        last_commit_is_left(&self.conn);
        let is_settled = self.conn.is_autocommit();
        prove!(is_settled);
    }

    /// Reads every row of each table that keeps the state, each alone, and lets it go: where one reads as none of the node's, the file
    /// is damaged, which is the store's refusal. What `head`, `shown` and `rollup` hold follows from the others and is not read. The
    /// state stays.
    pub fn inspect(&mut self) -> Result<(), Refusal>
        ensures read { HasCleanDisk (shown S.Store self.new) → OnOk result (ReadsTables S.Store self.old.conn (shown S.Store self.new)) }
        ensures unchanged { IsSound S.Store self.new → state_of S.Store self.new ≡ state_of S.Store self.old }
        ensures was_sound { IsSound S.Store self.new → IsSound S.Store self.old }
        ensures stays_sound { IsSound S.Store self.old → Stands S.Store self.new → IsSound S.Store self.new }
        ensures stood { Stands S.Store self.new → Stands S.Store self.old }
        ensures same_settings { settings_of self.new ≡ settings_of self.old }
        ensures refused { IfErr result IsOfStore }
        ensures crash { Survives (shown S.Store self.old) (shown S.Store self.new) (λ _. ⊥) }
    {
        inspect_in(self.alloc, &mut self.conn)
    }

    /// The desk is given up: what it is set to, and its database as it stands.
    pub fn into_parts(self) -> (Settings, Connection<S>)
        ensures same { result ≡ (self.settings, self.conn) }
    {
        let SqlDesk {
            settings,
            conn,
            first: _,
            alloc: _,
        } = self;
        (settings, conn)
    }
}

impl<S: Alter> Desk for SqlDesk<S> {
    ghost use Rattle.adr_desk.specs.Desks.{shown, settings_of, state_of, IsSound, Stands};

    ghost state = { λ d. state_of S.Store d };

    ghost settings = { λ d. settings_of d };

    ghost is_sound = { λ d. IsSound S.Store d };

    ghost stands = { λ d. Stands S.Store d };

    ghost may_refuse = { Unit {0} };

    /// Takes one step, in one transaction. A crash on the way leaves what it could before, or the whole step,
    /// never a part of it; and once the step is answered, it leaves the state after it alone.
    fn apply(&mut self, now: Moment, command: &Command) -> Result<Answer, Refusal>
        ensures ok { IfOk result (λ answer. IsSound S.Store self.new → step (settings_of self.old) (state_of S.Store self.old) now command.now ≡ Ok (answer, state_of S.Store self.new)) }
        ensures refused { IfErr result (λ refusal. IsSound S.Store self.new → IsRefusalOf refusal (step (settings_of self.old) (state_of S.Store self.old) now command.now)) }
        ensures listed { IfErr result (IsListed (Unit {0}) (listed command.now)) }
        ensures unchanged { OnErr result (IsSound S.Store self.new → state_of S.Store self.new ≡ state_of S.Store self.old) }
        ensures was_sound { IsSound S.Store self.new → IsSound S.Store self.old }
        ensures stays_sound { IsSound S.Store self.old → Stands S.Store self.new → IsSound S.Store self.new }
        ensures stood { Stands S.Store self.new → Stands S.Store self.old }
        ensures same_settings { settings_of self.new ≡ settings_of self.old }
        ensures crash { Survives (shown S.Store self.old) (shown S.Store self.new) (λ trees. (held : State) → HoldsState held (shown S.Store self.old) → LeftStepped (step_by (settings_of self.old) now command.now) held trees) }
        ensures committed { OnOk result (IsSound S.Store self.new → (shown S.Store self.new).committed ≡ (shown S.Store self.new).now) }
        ensures is_open { OnOk result (HasCleanDisk (shown S.Store self.new) → IsTrue (shown S.Store self.new).is_open) }
        ensures stands { OnOk result (IsSound S.Store self.new → (trees : Trees) → (shown S.Store self.new).may_leave trees → trees ≡ (shown S.Store self.new).now.trees) }
    {
        apply_in(self.alloc, &mut self.conn, &self.settings, now, command)
    }

    fn ask(&mut self, query: &Query) -> Result<Answer, Refusal>
        ensures ok { IfOk result (λ answer. IsSound S.Store self.new → reply (state_of S.Store self.old) query.now ≡ Ok answer) }
        ensures refused { IfErr result (λ refusal. IsSound S.Store self.new → IsRefusalOf refusal (reply (state_of S.Store self.old) query.now)) }
        ensures listed { IfErr result (IsListed (Unit {0}) (listed_for query.now)) }
        ensures unchanged { IsSound S.Store self.new → state_of S.Store self.new ≡ state_of S.Store self.old }
        ensures was_sound { IsSound S.Store self.new → IsSound S.Store self.old }
        ensures stays_sound { IsSound S.Store self.old → Stands S.Store self.new → IsSound S.Store self.new }
        ensures stood { Stands S.Store self.new → Stands S.Store self.old }
        ensures same_settings { settings_of self.new ≡ settings_of self.old }
        ensures crash { Survives (shown S.Store self.old) (shown S.Store self.new) (λ _. ⊥) }
    {
        ask_in(self.alloc, &mut self.conn, query)
    }

    fn image(&mut self) -> Result<Image, Refusal>
        ensures ok { IfOk result (λ image. IsSound S.Store self.new → image ≡ state_of S.Store self.old) }
        ensures refused { IfErr result (λ refusal. IsSound S.Store self.new → IsRefusalOf refusal (image_of (state_of S.Store self.old))) }
        ensures listed { IfErr result (IsListed (Unit {0}) []) }
        ensures unchanged { IsSound S.Store self.new → state_of S.Store self.new ≡ state_of S.Store self.old }
        ensures was_sound { IsSound S.Store self.new → IsSound S.Store self.old }
        ensures stays_sound { IsSound S.Store self.old → Stands S.Store self.new → IsSound S.Store self.new }
        ensures stood { Stands S.Store self.new → Stands S.Store self.old }
        ensures same_settings { settings_of self.new ≡ settings_of self.old }
        ensures crash { Survives (shown S.Store self.old) (shown S.Store self.new) (λ _. ⊥) }
    {
        image_in(self.alloc, &mut self.conn)
    }

    fn settings(&self) -> &Settings {
        &self.settings
    }
}
