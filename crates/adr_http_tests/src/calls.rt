//! Each public call with ample memory.
use crate::front::{CREATED, NONE, desk, roles_of, ten};
use adr_http::{Asked, HttpRequest, MEMORY_REPLY, Problem, Routes, answer, plan, render};
use adr_machine::{Command, Role};
use adr_reply::memory_reply;
use adr_text::Refusal;
use std::alloc::Global;
use std::test::Fail;

fn request(
    alloc: Global,
    method: &str,
    target: &str,
    token: &str,
    body: &str,
) -> Result<HttpRequest, Refusal> {
    Ok(HttpRequest {
        method: method.as_bytes().to_vec(alloc)?,
        target: target.as_bytes().to_vec(alloc)?,
        token: Some(token.as_bytes().to_vec(alloc)?),
        body: body.as_bytes().to_vec(alloc)?,
    })
}

/// Row 17: `Roles::new` with `t0` twice is refused 14.
#[test]
fn tokens(rt: HostRuntime) -> Result<(), Fail> {
    let alloc = rt.alloc();
    assert!(rt; matches!(roles_of(alloc, "t0", "t0"), Err(Refusal::BadShape)));
    let roles = roles_of(alloc, "t0", "u0")?;
    assert!(rt; matches!(roles.find(b"t0"), Some(Role::Operator)));
    assert!(rt; matches!(roles.find(b"u0"), Some(Role::Utility)));
    assert!(rt; roles.find(b"t").is_none());
    assert!(rt; roles.find(b"").is_none());
    Ok(())
}

/// Whether it is a ven's post by the operator.
fn is_ven(planned: &Result<Asked, Problem>) -> bool {
    match planned {
        Ok(Asked::Command(Command::VenAdd { role, .. })) => matches!(role, Role::Operator),
        _ => false,
    }
}

/// Whether a post of a ven is planned as one by the operator.
fn plans_a_ven(alloc: Global) -> Result<bool, Refusal> {
    let roles = roles_of(alloc, "t0", "u0")?;
    let routes = Routes::new(alloc)?;
    let request = request(alloc, "POST", "/vens", "t0", "{\"venName\":\"alpha\"}")?;
    Ok(is_ven(&plan(alloc, &roles, &routes, &request)))
}

/// The problem that is planned in its place.
fn problem_of(
    alloc: Global,
    method: &str,
    target: &str,
    token: &str,
) -> Result<Option<Problem>, Refusal> {
    let roles = roles_of(alloc, "t0", "u0")?;
    let routes = Routes::new(alloc)?;
    let request = request(alloc, method, target, token, "")?;
    Ok(plan(alloc, &roles, &routes, &request).err())
}

#[test]
fn plans(rt: HostRuntime) -> Result<(), Fail> {
    let alloc = rt.alloc();
    assert!(rt; plans_a_ven(alloc)?);
    assert!(rt; problem_of(alloc, "GET", "/x", "t1")? == Some(Problem::Unauthorized));
    assert!(rt; problem_of(alloc, "PUT", "/x", "t0")? == Some(Problem::NoPath));
    let method = problem_of(alloc, "PUT", "/vens?limit=51", "t0")?;
    assert!(rt;
        matches!(method, Some(Problem::NoMethod(methods)) if methods.get && methods.post && !methods.put)
    );
    let query = problem_of(alloc, "GET", "/vens?limit=51", "t0")?;
    assert!(rt; query == Some(Problem::Refused(Refusal::BadShape)));
    Ok(())
}

fn answered(alloc: Global, method: &str, body: &str) -> Result<Vec<u8>, Refusal> {
    let mut desk = desk(alloc)?;
    let roles = roles_of(alloc, "t0", "u0")?;
    let routes = Routes::new(alloc)?;
    let request = request(alloc, method, "/vens", "t0", body)?;
    Ok(answer(alloc, &mut desk, &roles, &routes, &request, ten()?)?)
}

#[test]
fn answers(rt: HostRuntime) -> Result<(), Fail> {
    let alloc = rt.alloc();
    let created = answered(alloc, "POST", "{\"venName\":\"alpha\"}")?;
    assert_eq!(rt; created.as_slice(), CREATED);
    let none = answered(alloc, "GET", "")?;
    assert_eq!(rt; none.as_slice(), NONE);
    Ok(())
}

#[test]
fn want_of_memory(rt: HostRuntime) -> Result<(), Fail> {
    let alloc = rt.alloc();
    let reply = Problem::Refused(Refusal::OutOfMemory).reply(alloc)?;
    let rendered = render(alloc, &reply)?;
    assert_eq!(rt; rendered.as_slice(), MEMORY_REPLY);
    assert_eq!(rt; memory_reply(), MEMORY_REPLY);
    Ok(())
}
