//! Lines told to a desk, as lines of a script or as requests in bytes.
use crate::request::{printed_of, request_of};
use adr_http::{Grant, Roles, Routes};
use adr_machine::{Desk, Role};
use adr_text::ObjectId;
use anyhow::Result;
use row_desks::{Front, serve, take_lines};
use std::alloc::Global;
use table_files::Pieces;

/// By what lines are told.
#[derive(Clone, Copy)]
pub struct Asker<'f> {
    pub roles: &'f Roles,
    pub routes: &'f Routes,
    /// Whether lines that are requests come as bytes.
    pub by_requests: bool,
}

/// The tokens: each is the word by which a script names who asks.
pub fn grants(alloc: Global) -> Result<Vec<Grant>> {
    let mut grants = Vec::new(alloc);
    for (token, role) in [
        ("operator", Role::Operator),
        ("utility", Role::Utility),
        ("ven:v1", Role::Ven(ObjectId::new(alloc, "v1")?)),
        ("ven:v2", Role::Ven(ObjectId::new(alloc, "v2")?)),
    ] {
        let token = token.as_bytes().to_vec(alloc)?;
        grants.push(Grant { token, role })?;
    }
    Ok(grants)
}

/// What a line prints, as a line of a script.
fn by_line<D: Desk>(alloc: Global, desk: &mut D, line: &[u8]) -> Option<Vec<u8>> {
    let mut printed = Vec::new(alloc);
    take_lines(alloc, desk, line, &mut printed).then_some(printed)
}

impl Asker<'_> {
    /// What a line prints; none where no answer came of it.
    pub fn told<D: Desk>(
        &self,
        alloc: Global,
        desk: &mut D,
        line: &[u8],
    ) -> Result<Option<Vec<u8>>> {
        if !self.by_requests {
            return Ok(by_line(alloc, desk, line));
        }
        let Some(request) = request_of(alloc, line)? else {
            return Ok(by_line(alloc, desk, line));
        };
        let front = Front {
            roles: self.roles,
            routes: self.routes,
            now: request.now,
        };
        let all = Pieces::Of(request.bytes.len().max(1));
        let mut reply = Vec::new(alloc);
        if !serve(
            alloc,
            desk,
            &front,
            request.bytes.as_slice(),
            all,
            &mut reply,
        ) {
            return Ok(None);
        }
        Ok(Some(printed_of(alloc, reply.as_slice())?))
    }
}
