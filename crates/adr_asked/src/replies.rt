//! The texts of answers, and the reply to what was asked.
ghost use Rattle.std.specs.Prelude.{◌≡◌, IfOk, string_bytes};
ghost use Rattle.adr_written.specs.WrittenReports.{rollup_text as text_of_rollup};
ghost use Rattle.adr_asked.specs.Replies.{object_text, list_text, answer_text, reply_of};
ghost use Rattle.adr_reply.specs.Replies.{reply_parts};

use crate::asked::{Asked, status_for};
use adr_machine::{Answer, Object};
use adr_objects::{Rollup, RollupObject};
use adr_reply::{Extra, Problem, Reply};
use adr_text::{Name, ObjectId, Refusal};
use adr_written::{
    write_counts, write_frozen, write_program, write_report, write_resource, write_rollup,
    write_share, write_sub, write_ven,
};
use std::alloc::{AllocError, Global};

fn object_text(alloc: Global, object: &Object) -> Result<String, AllocError>
    ensures { IfOk result (λ text. string_bytes text ≡ object_text object.now) }
{
    match object {
        Object::Program(program) => write_program(alloc, program),
        Object::Event(event) => event.text(alloc),
        Object::Report(report) => write_report(alloc, report),
        Object::Ven(ven) => write_ven(alloc, ven),
        Object::Resource(resource) => write_resource(alloc, resource),
        Object::Share(share) => write_share(alloc, share),
        Object::Sub(sub) => write_sub(alloc, sub),
    }
}

/// A list of objects, in brackets and parted by commas.
fn list_text(alloc: Global, objects: &[Object]) -> Result<String, AllocError>
    ensures { IfOk result (λ text. string_bytes text ≡ list_text objects.now) }
{
    let Some((first, rest)) = objects.split_first() else {
        return String::from_str(alloc, "[]");
    };
    let mut text = String::from_str(alloc, "[")?;
    text.push_str(object_text(alloc, first)?.as_str())?;
    for object in rest {
        text.push_str(",")?;
        text.push_str(object_text(alloc, object)?.as_str())?;
    }
    text.push_str("]")?;
    Ok(text)
}

/// The roll-up of an event, under the node's name.
fn rollup_text(
    alloc: Global,
    client: &Name,
    event: &ObjectId,
    rollup: &Rollup,
) -> Result<String, AllocError>
    ensures { IfOk result (λ text. string_bytes text ≡ text_of_rollup (record { client = client.now; event = event.now; rollup = rollup.now })) }
{
    let object = RollupObject {
        client: client.clone()?,
        event: event.clone()?,
        rollup: rollup.clone()?,
    };
    write_rollup(alloc, &object)
}

/// The body of an answer, of a node of that name.
#[tactic(auto, unfolding(crate::specs::Replies::answer_text))]
fn answer_text(alloc: Global, client: &Name, answer: &Answer) -> Result<String, AllocError>
    ensures { IfOk result (λ text. string_bytes text ≡ answer_text client.now answer.now) }
{
    match answer {
        Answer::Done | Answer::Changes(_) | Answer::Probes(_) | Answer::Job(_) => {
            String::from_str(alloc, "{}")
        }
        Answer::Object(object) => object_text(alloc, object),
        Answer::List(objects) => list_text(alloc, objects.as_slice()),
        Answer::Share(share) => write_share(alloc, share),
        Answer::Frozen(frozen) => write_frozen(alloc, frozen),
        Answer::Rollup(event, rollup) => rollup_text(alloc, client, event, rollup),
        Answer::Counts(counts) => write_counts(alloc, counts),
    }
}

/// What is replied to what was asked, by a node of that name.
pub fn reply_to(
    alloc: Global,
    client: &Name,
    asked: &Asked,
    outcome: &Result<Answer, Refusal>,
) -> Result<Reply, AllocError>
    ensures { IfOk result (λ reply. reply_parts reply ≡ reply_of client.now asked.now outcome.now) }
{
    match outcome {
        Ok(answer) => Ok(Reply {
            status: status_for(asked),
            extra: Extra::Nothing,
            body: answer_text(alloc, client, answer)?,
        }),
        Err(refusal) => Problem::Refused(*refusal).reply(alloc),
    }
}
