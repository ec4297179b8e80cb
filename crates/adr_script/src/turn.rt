//! One line's turn: it is read, taken as a step on a desk, and answered.
ghost use Rattle.std.specs.Prelude.{◌≡◌, Ok, Some, IfOk, OnErr, string_bytes};
ghost use Rattle.adr_reply.specs.Problems.{Tells};
ghost use Rattle.adr_text.specs.declared.refusal.Refusal.TheVariants.{OutOfMemory};
ghost use Rattle.adr_script.specs.Bodies.{want_by};
ghost use Rattle.adr_asked.specs.Turns.{Takes, MayLeave};
ghost use Rattle.adr_script.specs.Turns.{words_asked, turn_of, line_turn, want_line, IsTurn};

use crate::bodies::{bad_line, outcome_text, told_by};
use crate::request::request_of;
use crate::step::step_of;
use crate::words::moment_from;
use adr_asked::{Asked, take_asked, without};
use adr_machine::Desk;
use adr_reply::Problem;
use adr_routes::Routes;
use adr_text::{Moment, Refusal};
use adr_wire::cut;
use std::alloc::{AllocError, Global};

/// Takes the step of what was asked for, and prints it.
fn answer_asked<D: Desk>(
    alloc: Global,
    desk: &mut D,
    now: Moment,
    role: &[u8],
    asked: &Asked,
) -> Result<String, AllocError>
    ensures ok { IfOk result (λ out. D.is_sound desk.new → Takes D.may_refuse (want_by role.now) (D.state desk.old) (turn_of (D.settings desk.old) (D.state desk.old) now role.now (Ok (Some asked.now))) (string_bytes out) (D.state desk.new)) }
    ensures err { OnErr result (D.is_sound desk.new → MayLeave (D.state desk.old) (turn_of (D.settings desk.old) (D.state desk.old) now role.now (Ok (Some asked.now))) (D.state desk.new)) }
    ensures was_sound { D.is_sound desk.new → D.is_sound desk.old }
    ensures stays_sound { D.is_sound desk.old → D.stands desk.new → D.is_sound desk.new }
    ensures stood { D.stands desk.new → D.stands desk.old }
    ensures same_settings { D.settings desk.new ≡ D.settings desk.old }
{
    let outcome = take_asked(desk, now, asked);
    outcome_text(alloc, &desk.settings().client, role, asked, &outcome)
}

/// What the words of a role, or of the node itself, ask.
#[tactic(auto, unfolding(crate::specs::Turns::words_asked))]
fn words_asked(
    alloc: Global,
    routes: &Routes,
    role: &[u8],
    rest: &[u8],
) -> Result<Option<Asked>, Problem>
    ensures { Tells (λ a. a) result (words_asked role.now rest.now) }
{
    if role == b"node".as_slice() {
        Ok(step_of(alloc, rest)?)
    } else {
        request_of(alloc, routes, role, rest)
    }
}

/// The turn of a role, or of the node itself, as those words were read.
fn answer_words<D: Desk>(
    alloc: Global,
    desk: &mut D,
    now: Moment,
    role: &[u8],
    words: &Result<Option<Asked>, Problem>,
) -> Result<String, AllocError>
    ensures ok { IfOk result (λ out. D.is_sound desk.new → Takes D.may_refuse (want_by role.now) (D.state desk.old) (turn_of (D.settings desk.old) (D.state desk.old) now role.now words.now) (string_bytes out) (D.state desk.new)) }
    ensures err { OnErr result (D.is_sound desk.new → MayLeave (D.state desk.old) (turn_of (D.settings desk.old) (D.state desk.old) now role.now words.now) (D.state desk.new)) }
    ensures was_sound { D.is_sound desk.new → D.is_sound desk.old }
    ensures stays_sound { D.is_sound desk.old → D.stands desk.new → D.is_sound desk.new }
    ensures stood { D.stands desk.new → D.stands desk.old }
    ensures same_settings { D.settings desk.new ≡ D.settings desk.old }
{
    match words {
        Ok(Some(asked)) => answer_asked(alloc, desk, now, role, asked),
        Ok(None) => bad_line(alloc),
        Err(problem) => told_by(alloc, role, *problem),
    }
}

/// The turn of a role, or of the node itself.
fn answer_role<D: Desk>(
    alloc: Global,
    routes: &Routes,
    desk: &mut D,
    now: Moment,
    role: &[u8],
    rest: &[u8],
) -> Result<String, AllocError>
    ensures ok { IfOk result (λ out. D.is_sound desk.new → Takes D.may_refuse (want_by role.now) (D.state desk.old) (turn_of (D.settings desk.old) (D.state desk.old) now role.now (words_asked role.now rest.now)) (string_bytes out) (D.state desk.new)) }
    ensures err { OnErr result (D.is_sound desk.new → MayLeave (D.state desk.old) (turn_of (D.settings desk.old) (D.state desk.old) now role.now (words_asked role.now rest.now)) (D.state desk.new)) }
    ensures was_sound { D.is_sound desk.new → D.is_sound desk.old }
    ensures stays_sound { D.is_sound desk.old → D.stands desk.new → D.is_sound desk.new }
    ensures stood { D.stands desk.new → D.stands desk.old }
    ensures same_settings { D.settings desk.new ≡ D.settings desk.old }
{
    // The words are looked at by reference: taken apart, each kind of what is asked would be a path of its own here.
    let words = words_asked(alloc, routes, role, rest);
    let text = answer_words(alloc, desk, now, role, &words);
    without(words, text)
}

/// The turn of a line.
#[tactic(auto, unfolding(crate::specs::Turns::line_turn, crate::specs::Turns::want_line))]
fn take_line<D: Desk>(
    alloc: Global,
    routes: &Routes,
    desk: &mut D,
    line: &[u8],
) -> Result<String, AllocError>
    ensures ok { IfOk result (λ out. D.is_sound desk.new → IsTurn D.may_refuse (D.settings desk.old) (D.state desk.old) line.now (string_bytes out) (D.state desk.new)) }
    ensures err { OnErr result (D.is_sound desk.new → MayLeave (D.state desk.old) (line_turn (D.settings desk.old) (D.state desk.old) line.now) (D.state desk.new)) }
    ensures was_sound { D.is_sound desk.new → D.is_sound desk.old }
    ensures stays_sound { D.is_sound desk.old → D.stands desk.new → D.is_sound desk.new }
    ensures stood { D.stands desk.new → D.stands desk.old }
    ensures same_settings { D.settings desk.new ≡ D.settings desk.old }
{
    let (moment, Some(rest)) = cut(b' ', line) else {
        return bad_line(alloc);
    };
    let (role, rest) = cut(b' ', rest);
    let Some(now) = moment_from(moment) else {
        return bad_line(alloc);
    };
    let Some(rest) = rest else {
        return bad_line(alloc);
    };
    answer_role(alloc, routes, desk, now, role, rest)
}

/// What a line prints where memory ran out.
#[tactic(auto, unfolding(crate::specs::Turns::want_line))]
fn want_of_memory(alloc: Global, line: &[u8]) -> Result<String, AllocError>
    ensures { IfOk result (λ out. string_bytes out ≡ want_line line.now OutOfMemory) }
{
    match cut(b' ', line) {
        (_, Some(rest)) => told_by(
            alloc,
            cut(b' ', rest).0,
            Problem::Refused(Refusal::OutOfMemory),
        ),
        (_, None) => told_by(alloc, &[], Problem::Refused(Refusal::OutOfMemory)),
    }
}

/// Takes the turn of a line that isn't empty, and gives what it prints, with its LF. Where memory runs
/// out for the reply, that refusal is printed in its place.
pub fn answer_line<D: Desk>(
    alloc: Global,
    routes: &Routes,
    desk: &mut D,
    line: &[u8],
) -> Result<String, AllocError>
    ensures ok { IfOk result (λ out. D.is_sound desk.new → IsTurn D.may_refuse (D.settings desk.old) (D.state desk.old) line.now (string_bytes out) (D.state desk.new)) }
    ensures err { OnErr result (D.is_sound desk.new → MayLeave (D.state desk.old) (line_turn (D.settings desk.old) (D.state desk.old) line.now) (D.state desk.new)) }
    ensures was_sound { D.is_sound desk.new → D.is_sound desk.old }
    ensures stays_sound { D.is_sound desk.old → D.stands desk.new → D.is_sound desk.new }
    ensures stood { D.stands desk.new → D.stands desk.old }
    ensures same_settings { D.settings desk.new ≡ D.settings desk.old }
{
    match take_line(alloc, routes, desk, line) {
        Ok(text) => Ok(text),
        Err(_) => want_of_memory(alloc, line),
    }
}
