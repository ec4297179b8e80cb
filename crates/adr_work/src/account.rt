//! How an exchange went, in words for the log.
use std::fmt::{Display, Formatter};
use std::io::ErrorKind;
use std::{fmt, io};

/// What a call of the system failed by.
#[derive(Clone, Copy)]
pub struct Failure {
    kind: ErrorKind,
    code: Option<i32>,
}

impl Failure {
    /// That of an error.
    pub fn of(error: &io::Error) -> Failure {
        Failure {
            kind: error.kind(),
            code: error.raw_os_error(),
        }
    }

    /// That of a call that was not made.
    pub fn unmade(kind: ErrorKind) -> Failure {
        Failure { kind, code: None }
    }

    /// Whether it has waited too long.
    pub fn is_late(&self) -> bool {
        matches!(self.kind, ErrorKind::TimedOut | ErrorKind::WouldBlock)
    }
}

// Of an error that has no kind of its own the system's number is told.
impl Display for Failure {
    fn fmt<W: fmt::Write>(&self, f: &mut Formatter<W>) -> fmt::Result {
        match (self.kind, self.code) {
            (ErrorKind::Uncategorized, Some(code)) => write!(f, "os error {code}"),
            (kind, _) => write!(f, "{kind}"),
        }
    }
}

/// How an exchange at a gate went. No contract says anything of it: it is for the log alone.
#[derive(Clone, Copy)]
pub enum Account {
    /// Nothing is known of it.
    Untold,
    /// A reply came, with this status.
    Status(u16),
    /// No connection was made.
    NotConnected(Failure),
    /// The request could not be written.
    NotWritten(Failure),
    /// A read failed, behind so many bytes.
    NotRead(Failure, u64),
    /// Nothing more came in time, behind so many bytes.
    Late(u64),
    /// The other side ended behind so many bytes.
    Cut(u64),
    /// So many bytes came, and are no reply.
    NoReply(u64),
    /// The body is longer than is read.
    TooLarge,
    /// Memory was wanting for the reply.
    Memory,
    /// The node is to stop, and asks nothing more.
    Stopped,
    /// So many objects are on no page that they are asked for only by another such round.
    Withheld,
}

impl Display for Account {
    fn fmt<W: fmt::Write>(&self, f: &mut Formatter<W>) -> fmt::Result {
        match *self {
            Account::Untold => f.write_str("no reply"),
            Account::Status(status) => write!(f, "status {status}"),
            Account::NotConnected(failure) if failure.is_late() => {
                f.write_str("connect: no answer in time")
            }
            Account::NotConnected(failure) => write!(f, "connect: {failure}"),
            Account::NotWritten(failure) if failure.is_late() => {
                f.write_str("request not taken in time")
            }
            Account::NotWritten(failure) => write!(f, "request not taken: {failure}"),
            Account::NotRead(failure, 0) => write!(f, "no reply: {failure}"),
            Account::NotRead(failure, bytes) => write!(f, "cut after {bytes} bytes: {failure}"),
            Account::Late(0) => f.write_str("no reply in time"),
            Account::Late(bytes) => write!(f, "no more in time after {bytes} bytes"),
            Account::Cut(0) => f.write_str("closed without a reply"),
            Account::Cut(bytes) => write!(f, "cut after {bytes} bytes"),
            Account::NoReply(bytes) => write!(f, "no HTTP/1.1 reply in {bytes} bytes"),
            Account::TooLarge => f.write_str("reply of more than 8388608 bytes"),
            Account::Memory => f.write_str("out of memory"),
            Account::Stopped => f.write_str("the node stops"),
            Account::Withheld => f.write_str("not asked for"),
        }
    }
}
