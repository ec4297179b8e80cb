//! What the words of a request ask of the machine.
ghost use Rattle.std.specs.Prelude.{◌≡◌, unwrap_or, IfOk};
ghost use Rattle.adr_text.specs.Refusals.{Gives};
ghost use Rattle.adr_routes.specs.Paths.{place_of};
ghost use Rattle.adr_routes.specs.Places.{methods_of};
ghost use Rattle.adr_reply.specs.Problems.{Tells};
ghost use Rattle.adr_asked.specs.Requests.{told_asked, notified, root_asked, asked_by_get, asked_by_post, asked_by_put, asked_by_delete, asked_by, asked_or, asked_at, path_in, asked_of};

use crate::asked::Asked;
use crate::filter::{filter_asked, report_filter_asked};
use crate::query::page_asked;
use adr_machine::{Command, Query, Role};
use adr_objects::ShareIn;
use adr_reply::Problem;
use adr_routes::{Methods, One, Path, Root, Routes, Two, methods_of, place_of, text_from};
use adr_schema::{
    NoticeIn, read_anything, read_notice, read_report, read_resource, read_share, read_ven,
};
use adr_subscription::read_sub;
use adr_text::{Refusal, Rows};
use adr_wire::cut;
use std::alloc::{AllocError, Global};

/// What is read at a path with no id.
#[tactic(auto, unfolding(crate::specs::Requests::root_asked))]
fn root_asked(alloc: Global, role: Role, root: Root, query: &[u8]) -> Result<Option<Asked>, Refusal>
    ensures { Gives (λ a. a) result (root_asked role root query.now) }
{
    let query = match root {
        Root::Programs => {
            let page = page_asked(alloc, query)?;
            Query::Programs { role, page }
        }
        Root::Events => {
            let filter = filter_asked(alloc, query)?;
            let page = page_asked(alloc, query)?;
            Query::Events { role, filter, page }
        }
        Root::Reports => {
            let filter = report_filter_asked(alloc, query)?;
            let page = page_asked(alloc, query)?;
            Query::Reports { role, filter, page }
        }
        Root::Subs => {
            let filter = report_filter_asked(alloc, query)?;
            let page = page_asked(alloc, query)?;
            Query::Subs { role, filter, page }
        }
        Root::Vens => {
            let page = page_asked(alloc, query)?;
            Query::Vens { role, page }
        }
        Root::Outbox => Query::Outbox { role },
        Root::Notifications => return Ok(None),
    };
    Ok(Some(Asked::Query(query)))
}

/// What is read at a path. Only a listing has a query.
#[tactic(auto, unfolding(crate::specs::Requests::asked_by_get))]
fn asked_by_get(
    alloc: Global,
    role: Role,
    path: Path,
    query: &[u8],
) -> Result<Option<Asked>, Refusal>
    ensures { Gives (λ a. a) result (asked_by_get role path query.now) }
{
    let query = match path {
        Path::At(root) => return root_asked(alloc, role, root, query),
        Path::Of(One::Program, id) => Query::Program { role, id },
        Path::Of(One::Event, id) => Query::Event { role, id },
        Path::Of(One::Report, id) => Query::Report { role, id },
        Path::Of(One::Rollup, event) => Query::Rollup { role, event },
        Path::Of(One::Sub, id) => Query::Sub { role, id },
        Path::Of(One::Resources, ven) => {
            let page = page_asked(alloc, query)?;
            Query::Resources { role, ven, page }
        }
        Path::Of(One::Ven, id) => Query::Ven { role, id },
        Path::Under(Two::Resource, ven, id) => Query::Resource { role, ven, id },
        Path::Of(One::Shares, program) => Query::Shares { role, program },
        Path::Of(One::Frozen, event) => Query::Frozen { role, event },
        Path::Under(Two::Share, _, _) => return Ok(None),
    };
    Ok(Some(Asked::Query(query)))
}

/// What a notification asks, if it asks anything.
fn told_asked(alloc: Global, notice: NoticeIn) -> Result<Asked, AllocError>
    ensures { IfOk result (λ asked. asked ≡ told_asked notice) }
{
    match notice {
        NoticeIn::Found(version) => {
            let mut found = Rows::new(alloc);
            found.push(version)?;
            Ok(Asked::Command(Command::Evidence {
                found,
                polled: false,
            }))
        }
        NoticeIn::Gone { kind, id } => Ok(Asked::Command(Command::Gone {
            kind,
            id: id.as_id().clone()?,
        })),
        NoticeIn::Ignored => Ok(Asked::Nothing),
    }
}

/// `POST /notifications`, by the utility alone.
fn notified(alloc: Global, role: &Role, body: &[u8]) -> Result<Option<Asked>, Refusal>
    ensures { Gives (λ a. a) result (notified role.now body.now) }
{
    let notice = read_notice(alloc, body)?;
    match role {
        Role::Utility => Ok(Some(told_asked(alloc, notice)?)),
        Role::Operator | Role::Ven(_) => Err(Refusal::Forbidden),
    }
}

/// What is posted to a path.
#[tactic(auto, unfolding(crate::specs::Requests::asked_by_post))]
fn asked_by_post(
    alloc: Global,
    role: Role,
    path: Path,
    body: &[u8],
) -> Result<Option<Asked>, Refusal>
    ensures { Gives (λ a. a) result (asked_by_post role path body.now) }
{
    match path {
        Path::At(Root::Vens) => {
            let ven = read_ven(alloc, body)?;
            Ok(Some(Asked::Command(Command::VenAdd { role, ven })))
        }
        Path::At(Root::Notifications) => notified(alloc, &role, body),
        Path::At(Root::Reports) => {
            let report = read_report(alloc, body)?;
            Ok(Some(Asked::Command(Command::ReportPost { role, report })))
        }
        Path::At(Root::Subs) => {
            let sub = read_sub(alloc, body)?;
            Ok(Some(Asked::Command(Command::SubPost { role, sub })))
        }
        Path::Of(One::Resources, ven) => {
            let resource = read_resource(alloc, body)?;
            Ok(Some(Asked::Command(Command::ResourceAdd {
                role,
                ven,
                resource,
            })))
        }
        _ => Ok(None),
    }
}

/// What is put at a path. What a body says that freezes an event is passed over.
#[tactic(auto, unfolding(crate::specs::Requests::asked_by_put))]
fn asked_by_put(
    alloc: Global,
    role: Role,
    path: Path,
    body: &[u8],
) -> Result<Option<Asked>, Refusal>
    ensures { Gives (λ a. a) result (asked_by_put role path body.now) }
{
    let command = match path {
        Path::Of(One::Ven, id) => {
            let ven = read_ven(alloc, body)?;
            Command::VenPut { role, id, ven }
        }
        Path::Under(Two::Resource, ven, id) => {
            let resource = read_resource(alloc, body)?;
            Command::ResourcePut {
                role,
                ven,
                id,
                resource,
            }
        }
        Path::Of(One::Report, id) => {
            let report = read_report(alloc, body)?;
            Command::ReportPut { role, id, report }
        }
        Path::Of(One::Sub, id) => {
            let sub = read_sub(alloc, body)?;
            Command::SubPut { role, id, sub }
        }
        Path::Under(Two::Share, program, resource) => {
            let share = read_share(alloc, body)?;
            Command::ShareSet {
                role,
                program,
                resource,
                share,
            }
        }
        Path::Of(One::Frozen, event) => {
            read_anything(alloc, body)?;
            Command::Freeze { role, event }
        }
        _ => return Ok(None),
    };
    Ok(Some(Asked::Command(command)))
}

/// What is removed at a path: a share by setting it to 0.
#[tactic(auto, unfolding(crate::specs::Requests::asked_by_delete))]
fn asked_by_delete(role: Role, path: Path) -> Option<Asked>
    ensures { result ≡ asked_by_delete role path }
{
    let command = match path {
        Path::Of(One::Ven, id) => Command::VenRemove { role, id },
        Path::Under(Two::Resource, ven, id) => Command::ResourceRemove { role, ven, id },
        Path::Of(One::Report, id) => Command::ReportDelete { role, id },
        Path::Of(One::Sub, id) => Command::SubDelete { role, id },
        Path::Under(Two::Share, program, resource) => Command::ShareSet {
            role,
            program,
            resource,
            share: ShareIn { share: 0 },
        },
        _ => return None,
    };
    Some(Asked::Command(command))
}

/// By the method.
#[tactic(auto, unfolding(crate::specs::Requests::asked_by))]
fn asked_by(
    alloc: Global,
    role: Role,
    method: &[u8],
    path: Path,
    query: &[u8],
    body: &[u8],
) -> Result<Option<Asked>, Refusal>
    ensures { Gives (λ a. a) result (asked_by role method.now path query.now body.now) }
{
    if method == b"GET".as_slice() {
        asked_by_get(alloc, role, path, query)
    } else if method == b"POST".as_slice() {
        asked_by_post(alloc, role, path, body)
    } else if method == b"PUT".as_slice() {
        asked_by_put(alloc, role, path, body)
    } else if method == b"DELETE".as_slice() {
        Ok(asked_by_delete(role, path))
    } else {
        Ok(None)
    }
}

/// What was asked, or why nothing is: a method that the path hasn't is none.
fn asked_or(methods: Methods, asked: Result<Option<Asked>, Refusal>) -> Result<Asked, Problem>
    ensures { result ≡ asked_or methods asked }
{
    match asked {
        Ok(Some(asked)) => Ok(asked),
        Ok(None) => Err(Problem::NoMethod(methods)),
        Err(refusal) => Err(Problem::Refused(refusal)),
    }
}

/// What is asked at a path.
#[tactic(auto, using(crate::proofs::Asking::asked_or_gives))]
fn asked_at(
    alloc: Global,
    role: Role,
    method: &[u8],
    path: Path,
    query: &[u8],
    body: &[u8],
) -> Result<Asked, Problem>
    ensures { Tells (λ a. a) result (asked_at role method.now path query.now body.now) }
{
    let methods = methods_of(place_of(&path));
    asked_or(methods, asked_by(alloc, role, method, path, query, body))
}

/// The path that the bytes are.
fn path_in(alloc: Global, routes: &Routes, bytes: &[u8]) -> Result<Option<Path>, AllocError>
    ensures { IfOk result (λ path. path ≡ path_in bytes.now) }
{
    match text_from(bytes) {
        Some(text) => routes.find(alloc, text),
        None => Ok(None),
    }
}

/// What a role asks by a method, a path, behind `?` a query, and a body, or why it asks nothing: there is no such path,
/// the path hasn't the method, or the query or the body is of another form.
#[tactic(auto, unfolding(crate::specs::Requests::asked_of))]
pub fn asked_of(
    alloc: Global,
    routes: &Routes,
    role: Role,
    method: &[u8],
    target: &[u8],
    body: &[u8],
) -> Result<Asked, Problem>
    ensures { Tells (λ a. a) result (asked_of role method.now target.now body.now) }
{
    let (path, query) = cut(b'?', target);
    let Some(path) = path_in(alloc, routes, path)? else {
        return Err(Problem::NoPath);
    };
    asked_at(alloc, role, method, path, query.unwrap_or(&[]), body)
}
