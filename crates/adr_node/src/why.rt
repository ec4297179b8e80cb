//! Why the program ends early, in words for a person.
use adr_log::Shown;
use std::fmt::{Display, Write};
use std::io::ErrorKind;
use std::net::SocketAddr;
use std::{fmt, io};

/// How many characters of a name are shown, so that the reason behind it has room.
const MOST_OF_NAME: usize = 500;

/// The line before the last one on standard error, which says only what kind of fault it was: this one says what can't
/// be used, and why, whatever the log tells.
pub struct Why {
    line: Option<Shown>,
}

impl Drop for Why {
    fn drop(self) {
        let Why { line: _ } = self;
    }
}

/// A line of the program on something.
pub fn line_on<D: Display>(what: &str, why: &D) -> Shown {
    let mut line = Shown::new();
    let _ = line.write_str("adr_node: ");
    for c in what.chars().take(MOST_OF_NAME) {
        let _ = line.write_char(c);
    }
    let _ = write!(line, ": {why}");
    line
}

impl Why {
    /// Nothing is to be said yet.
    pub fn none() -> Why {
        Why { line: None }
    }

    /// It can't be used, for this reason.
    pub fn say<D: Display>(&mut self, what: &str, why: &D) {
        self.line = Some(line_on(what, why));
    }

    /// Writes the line, if there is one.
    pub fn tell<R: Eprint>(&self, rt: &R) {
        if let Some(line) = &self.line {
            let _ = rt.eprintln(line.as_str());
        }
    }
}

/// That nobody can listen there.
#[derive(Clone, Copy)]
pub struct Unheard(pub SocketAddr);

impl Display for Unheard {
    fn fmt<W: fmt::Write>(&self, f: &mut fmt::Formatter<W>) -> fmt::Result {
        write!(f, "can't listen at {}", self.0)
    }
}

/// What the system refused a file by, in words.
#[derive(Clone, Copy)]
pub struct Cause {
    kind: ErrorKind,
    code: Option<i32>,
}

impl Cause {
    /// That of an error.
    pub fn of(error: &io::Error) -> Cause {
        Cause {
            kind: error.kind(),
            code: error.raw_os_error(),
        }
    }
}

// Of an error that has no kind of its own the system's number is told.
impl Display for Cause {
    fn fmt<W: fmt::Write>(&self, f: &mut fmt::Formatter<W>) -> fmt::Result {
        match (self.kind, self.code) {
            (ErrorKind::NotFound, _) => f.write_str("no such file or folder"),
            (ErrorKind::PermissionDenied, _) => f.write_str("permission denied"),
            (ErrorKind::IsADirectory, _) => f.write_str("a folder"),
            (ErrorKind::NotADirectory, _) => f.write_str("not in a folder"),
            (ErrorKind::AlreadyExists, _) => f.write_str("it is there already"),
            (ErrorKind::StorageFull | ErrorKind::QuotaExceeded, _) => f.write_str(
                "the disk is full",
            ),
            (ErrorKind::ReadOnlyFilesystem, _) => f.write_str("the file system is read-only"),
            (ErrorKind::Uncategorized, Some(code)) => write!(f, "os error {code}"),
            (kind, _) => write!(f, "{kind}"),
        }
    }
}
