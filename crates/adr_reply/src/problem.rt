//! What a reply tells where a request has no answer (RFC 7807).
ghost use Rattle.std.specs.Prelude.{◌≡◌, ◌≤◌, ◌<◌, IfOk, string_bytes};
ghost use Rattle.adr_reply.specs.Problems.{problem_status, problem_extra, problem_body, problem_reply};
ghost use Rattle.adr_reply.specs.Replies.{reply_parts};
ghost use Rattle.adr_reply.specs.declared.problem.Problem.TheVariants.{Refused};
ghost use Rattle.adr_text.specs.declared.refusal.Refusal.TheVariants.{OutOfMemory};

use crate::reply::{Extra, Reply};
use adr_routes::Methods;
use adr_text::Refusal;
use adr_written::write_problem;
use std::alloc::{AllocError, Global};

/// Why a request has no answer.
#[derive(Clone, Copy, Debug, PartialEq, Eq)]
pub enum Problem {
    /// The machine's refusal, or that of the readers of queries and objects.
    Refused(Refusal),
    /// 400: the bytes are no request.
    BadRequest,
    /// 413: the body is longer than 1 MiB.
    TooLarge,
    /// 501: the body has a transfer coding beside `chunked`.
    NoCoding,
    /// 401: no token is shown, or one that isn't known.
    Unauthorized,
    /// 404: there is no such path.
    NoPath,
    /// 405: the path has these methods, and no other.
    NoMethod(Methods),
}

impl From<Refusal> for Problem {
    ghost from_gives = { λ refusal e. e ≡ Refused refusal };

    fn from(refusal: Refusal) -> Problem {
        Problem::Refused(refusal)
    }
}

impl From<AllocError> for Problem {
    ghost from_gives = { λ _ e. e ≡ Refused OutOfMemory };

    fn from(_e: AllocError) -> Problem {
        Problem::Refused(Refusal::OutOfMemory)
    }
}

impl Problem {
    /// The status of a reply that tells it.
    #[tactic(auto, using(crate::proofs::Codes::status_is_code))]
    pub fn status(self) -> u16
        ensures status { result ≡ problem_status self }
        ensures is_code { (100 ≤ result) × (result < 1000) }
    {
        match self {
            Problem::Refused(refusal) => refusal.status(),
            Problem::BadRequest => 400,
            Problem::TooLarge => 413,
            Problem::NoCoding => 501,
            Problem::Unauthorized => 401,
            Problem::NoPath => 404,
            Problem::NoMethod(_) => 405,
        }
    }

    /// The field that a reply has beside the others: how to show a token (RFC 6750), or the methods that there are.
    fn extra(self) -> Extra
        ensures { result ≡ problem_extra self }
    {
        match self {
            Problem::Unauthorized => Extra::Challenge,
            Problem::NoMethod(methods) => Extra::Allow(methods),
            _ => Extra::Nothing,
        }
    }

    /// The problem as JSON.
    pub fn body(self, alloc: Global) -> Result<String, AllocError>
        ensures { IfOk result (λ text. string_bytes text ≡ problem_body self) }
    {
        let text = match self {
            Problem::Refused(refusal) => return write_problem(alloc, refusal),
            Problem::BadRequest =>
                "{\"detail\":\"malformed request\",\"status\":400,\"title\":\"BadRequest\"}",
            Problem::TooLarge =>
                "{\"detail\":\"request too large\",\"status\":413,\"title\":\"TooLarge\"}",
            Problem::NoCoding =>
                "{\"detail\":\"transfer coding not known\",\"status\":501,\"title\":\"NoCoding\"}",
            Problem::Unauthorized =>
                "{\"detail\":\"token not known\",\"status\":401,\"title\":\"Unauthorized\"}",
            Problem::NoPath => "{\"detail\":\"no such path\",\"status\":404,\"title\":\"NoPath\"}",
            Problem::NoMethod(_) =>
                "{\"detail\":\"method not allowed here\",\"status\":405,\"title\":\"NoMethod\"}",
        };
        String::from_str(alloc, text)
    }

    /// The reply that tells it.
    pub fn reply(self, alloc: Global) -> Result<Reply, AllocError>
        ensures { IfOk result (λ reply. reply_parts reply ≡ problem_reply self) }
    {
        Ok(Reply {
            status: self.status(),
            extra: self.extra(),
            body: self.body(alloc)?,
        })
    }
}
