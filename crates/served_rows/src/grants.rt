//! The tokens of a table.
use adr_http::Grant;
use adr_machine::Role;
use adr_text::ObjectId;
use anyhow::{Context, Result, bail};
use std::alloc::Global;

/// The role of that word.
fn role_of(alloc: Global, word: &str) -> Result<Role> {
    match word {
        "operator" => Ok(Role::Operator),
        "utility" => Ok(Role::Utility),
        _ => match word.strip_prefix("ven:") {
            Some(id) => Ok(Role::Ven(ObjectId::new(alloc, id)?)),
            None => bail!("no such role: {word}"),
        },
    }
}

/// `TOKEN ROLE`.
pub fn read_grant(alloc: Global, text: &str) -> Result<Grant> {
    let (token, role) = text.split_once(' ').context("no role behind a token")?;
    Ok(Grant {
        token: token.as_bytes().to_vec(alloc)?,
        role: role_of(alloc, role)?,
    })
}

/// The same grants once more.
pub fn copies_of(alloc: Global, grants: &[Grant]) -> Result<Vec<Grant>> {
    let mut copies = Vec::new(alloc);
    for grant in grants {
        copies.push(Grant {
            token: grant.token.as_slice().to_vec(alloc)?,
            role: grant.role.clone()?,
        })?;
    }
    Ok(copies)
}
