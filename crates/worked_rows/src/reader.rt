//! The readers of texts, and what each makes of one, as a line.
use adr_objects::{
    Found, Kind, Number, ReportBody, ReportHead, ReportIn, ReportObject, Stamps, canonical,
    read_canonical,
};
use adr_schema::{
    NoticeIn, read_anything, read_notice, read_one, read_page, read_report, read_resource,
    read_share, read_ven,
};
use adr_text::{Fault, Moment, Name, ObjectId, Refusal, Whole, read_value, whole};
use adr_written::write_report;
use std::alloc::{AllocError, Global};
use std::str::from_utf8;

/// What reads a text.
#[derive(Clone, Copy)]
pub enum Reader {
    Page(Kind),
    One(Kind),
    Notice,
    Canonical,
    Ven,
    Resource,
    Share,
    /// Nothing of a text but that it is JSON.
    Anything,
    Report,
    Moment,
    ObjectId,
    Name,
    /// A JSON value, as a whole number.
    Whole,
}

impl Reader {
    /// The reader of that name.
    pub fn of(name: &str) -> Option<Reader> {
        match name {
            "page events" => Some(Reader::Page(Kind::Event)),
            "page programs" => Some(Reader::Page(Kind::Program)),
            "one event" => Some(Reader::One(Kind::Event)),
            "one program" => Some(Reader::One(Kind::Program)),
            "notification" => Some(Reader::Notice),
            "canonical text" => Some(Reader::Canonical),
            "ven" => Some(Reader::Ven),
            "resource" => Some(Reader::Resource),
            "share" => Some(Reader::Share),
            "anything" => Some(Reader::Anything),
            "report" => Some(Reader::Report),
            "moment" => Some(Reader::Moment),
            "object id" => Some(Reader::ObjectId),
            "name" => Some(Reader::Name),
            "whole number" => Some(Reader::Whole),
            _ => None,
        }
    }
}

/// How many elements of the page are passed over, and the canonical text of each other one.
fn page_line(alloc: Global, kind: Kind, text: &[u8]) -> Result<String, Refusal> {
    let (found, skipped) = read_page(alloc, kind, text)?;
    let mut line = format!(in alloc; "skipped {skipped}")?;
    for version in found.as_slice() {
        line.push_str(" ")?;
        line.push_str(canonical(alloc, &version.body)?.as_str())?;
    }
    Ok(line)
}

fn kind_word(kind: Kind) -> &'static str {
    match kind {
        Kind::Program => "program",
        Kind::Event => "event",
    }
}

/// The kind and the id of a version, its moment, and its canonical text.
fn version_line(alloc: Global, version: &Found) -> Result<String, Refusal> {
    let kind = kind_word(version.kind);
    let id = version.id.as_id().as_str();
    let moment = version.moment.text(alloc)?;
    let body = canonical(alloc, &version.body)?;
    Ok(format!(in alloc; "{kind} {id} {moment} {body}")?)
}

fn one_line(alloc: Global, kind: Kind, text: &[u8]) -> Result<String, Refusal> {
    version_line(alloc, &read_one(alloc, kind, text)?)
}

fn told_line(alloc: Global, notice: &NoticeIn) -> Result<String, Refusal> {
    match notice {
        NoticeIn::Found(version) => version_line(alloc, version),
        NoticeIn::Gone { kind, id } => {
            let kind = kind_word(*kind);
            let id = id.as_id().as_str();
            Ok(format!(in alloc; "gone {kind} {id}")?)
        }
        NoticeIn::Ignored => Ok(String::from_str(alloc, "ignored")?),
    }
}

fn notice_line(alloc: Global, text: &[u8]) -> Result<String, Refusal> {
    told_line(alloc, &read_notice(alloc, text)?)
}

/// The canonical text of the body that a canonical text is read as.
fn canonical_line(alloc: Global, text: &str) -> Result<String, Refusal> {
    let body = read_canonical(alloc, text)?;
    Ok(canonical(alloc, &body)?)
}

fn ven_line(alloc: Global, text: &[u8]) -> Result<String, Refusal> {
    let ven = read_ven(alloc, text)?;
    Ok(String::from_str(alloc, ven.name.as_str())?)
}

fn resource_line(alloc: Global, text: &[u8]) -> Result<String, Refusal> {
    let resource = read_resource(alloc, text)?;
    Ok(String::from_str(alloc, resource.name.as_name().as_str())?)
}

fn share_line(alloc: Global, text: &[u8]) -> Result<String, Refusal> {
    let share = read_share(alloc, text)?.share;
    Ok(format!(in alloc; "{share}")?)
}

fn anything_line(alloc: Global, text: &[u8]) -> Result<String, Refusal> {
    read_anything(alloc, text)?;
    Ok(String::from_str(alloc, "passed over")?)
}

/// What is kept of a report, as one of resource 3 about the upstream event of that id.
fn body_of(report: ReportIn) -> ReportBody {
    ReportBody {
        head: ReportHead {
            program: report.program,
            event: report.event,
            resource: Number::new(3),
            client: report.client,
            name: report.name,
            resource_name: report.resource_name,
        },
        intervals: report.intervals.into_rows(),
    }
}

/// The report as it is written, with the number 6.
fn report_line(alloc: Global, text: &[u8]) -> Result<String, Refusal> {
    let body = body_of(read_report(alloc, text)?);
    let moment = Moment::read("2024-07-01T10:00:00Z")?;
    let stamps = Stamps {
        created: moment,
        modified: moment,
    };
    let number = Number::new(6);
    Ok(write_report(
        alloc,
        &ReportObject {
            number,
            body,
            stamps,
        },
    )?)
}

/// The text, where it is UTF-8.
fn text_of(text: &[u8]) -> Result<&str, Refusal> {
    from_utf8(text).map_err(|_| Refusal::BadShape)
}

fn id_line(alloc: Global, text: &[u8]) -> Result<String, Refusal> {
    let id = ObjectId::new(alloc, text_of(text)?)?;
    Ok(String::from_str(alloc, id.as_str())?)
}

fn name_line(alloc: Global, text: &[u8]) -> Result<String, Refusal> {
    let name = Name::new(alloc, text_of(text)?)?;
    Ok(String::from_str(alloc, name.as_str())?)
}

fn whole_line(alloc: Global, text: &[u8]) -> Result<String, Refusal> {
    let value = read_value(alloc, text).map_err(Fault::refusal)?;
    let line = match whole(&value) {
        Whole::In(number) => format!(in alloc; "{number}"),
        Whole::Beyond => String::from_str(alloc, "beyond"),
        Whole::Fraction => String::from_str(alloc, "a fraction"),
        Whole::NoNumber => String::from_str(alloc, "no number"),
    };
    Ok(line?)
}

fn line(alloc: Global, reader: Reader, text: &[u8]) -> Result<String, Refusal> {
    match reader {
        Reader::Page(kind) => page_line(alloc, kind, text),
        Reader::One(kind) => one_line(alloc, kind, text),
        Reader::Notice => notice_line(alloc, text),
        Reader::Canonical => canonical_line(alloc, text_of(text)?),
        Reader::Ven => ven_line(alloc, text),
        Reader::Resource => resource_line(alloc, text),
        Reader::Share => share_line(alloc, text),
        Reader::Anything => anything_line(alloc, text),
        Reader::Report => report_line(alloc, text),
        Reader::Moment => Ok(Moment::read(text_of(text)?)?.text(alloc)?),
        Reader::ObjectId => id_line(alloc, text),
        Reader::Name => name_line(alloc, text),
        Reader::Whole => whole_line(alloc, text),
    }
}

/// What the reader makes of the text, or its refusal.
pub fn answer(alloc: Global, reader: Reader, text: &[u8]) -> Result<String, AllocError> {
    match line(alloc, reader, text) {
        Ok(line) => Ok(line),
        Err(refusal) => format!(in alloc; "refused {} {}", refusal.number(), refusal.title()),
    }
}
