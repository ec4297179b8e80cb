//! A desk over a file. It has a type of its own, so that whoever serves over one needn't look at what it stands on.
use adr_desk::SqlDesk;
use adr_machine::{Answer, Command, Desk, Query};
use adr_state::{Image, Settings};
use adr_text::{Moment, Refusal};
use sqlite::{File, FileStore};

/// A desk over a file.
#[derive(Drop)]
pub struct FileDesk(pub SqlDesk<FileStore<File>>);

impl FileDesk {
    ghost use Rattle.std.specs.Prelude.{◌≡◌, OnOk, IfErr};
    ghost use Rattle.sqlite.specs.State.{HasCleanDisk};
    ghost use Rattle.sqlite.specs.Files.{over_files};
    ghost use Rattle.adr_db.specs.Calls.{IsOfStore};
    ghost use Rattle.adr_desk.specs.Desks.{settings_of, shown, state_of, IsSound, Stands};
    ghost use Rattle.adr_desk.specs.Inspected.{ReadsTables};

    /// Reads every row of each table that keeps the state, each alone, and lets it go (`SqlDesk::inspect`). The state stays.
    pub fn inspect(&mut self) -> Result<(), Refusal>
        ensures read { HasCleanDisk (shown over_files self.new.0) → OnOk result (ReadsTables over_files self.old.0.conn (shown over_files self.new.0)) }
        ensures unchanged { IsSound over_files self.new.0 → state_of over_files self.new.0 ≡ state_of over_files self.old.0 }
        ensures was_sound { IsSound over_files self.new.0 → IsSound over_files self.old.0 }
        ensures stays_sound { IsSound over_files self.old.0 → Stands over_files self.new.0 → IsSound over_files self.new.0 }
        ensures same_settings { settings_of self.new.0 ≡ settings_of self.old.0 }
        ensures refused { IfErr result IsOfStore }
    {
        self.0.inspect()
    }
}

impl Desk for FileDesk {
    ghost state = { λ d. ⟦<SqlDesk<FileStore<File>> as Desk>⟧.state d.0 };

    ghost settings = { λ d. ⟦<SqlDesk<FileStore<File>> as Desk>⟧.settings d.0 };

    ghost is_sound = { λ d. ⟦<SqlDesk<FileStore<File>> as Desk>⟧.is_sound d.0 };

    ghost stands = { λ d. ⟦<SqlDesk<FileStore<File>> as Desk>⟧.stands d.0 };

    ghost may_refuse = { ⟦<SqlDesk<FileStore<File>> as Desk>⟧.may_refuse };

    fn apply(&mut self, now: Moment, command: &Command) -> Result<Answer, Refusal> {
        self.0.apply(now, command)
    }

    fn ask(&mut self, query: &Query) -> Result<Answer, Refusal> {
        self.0.ask(query)
    }

    fn image(&mut self) -> Result<Image, Refusal> {
        self.0.image()
    }

    fn settings(&self) -> &Settings {
        self.0.settings()
    }
}
