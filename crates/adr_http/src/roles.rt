//! The tokens of a node, and what each allows.
ghost use Rattle.std.specs.Prelude.{◌≡◌, ◌<◌, IfOk, map, bytes_eq};
ghost use Rattle.std.specs.Option.{option_copied};
ghost use Rattle.adr_http.specs.Roles.{granted, role_of, roles_of};

use adr_machine::Role;
use adr_text::Refusal;
use std::alloc::{AllocError, Global};
use std::marker::Model;

/// A token, and the role of who shows it.
#[derive(Drop)]
pub struct Grant {
    pub token: Vec<u8>,
    pub role: Role,
}

impl Grant {
    /// The same token with the same role again.
    fn copy(&self) -> Result<Grant, AllocError>
        ensures { IfOk result (λ copy. granted copy ≡ granted self.now) }
    {
        Ok(Grant {
            token: self.token.clone()?,
            role: self.role.clone()?,
        })
    }
}

/// Who may ask: tokens, none of them twice, each with a role.
#[derive(Drop)]
pub struct Roles {
    grants: Vec<Grant>,
}

impl Model for Roles {
    ghost use Rattle.std.specs.Prelude.{ℕ, List, map};
    ghost use Rattle.adr_queries.specs.declared.role.Role.{Role};
    ghost use Rattle.adr_http.specs.Roles.{granted};

    ghost Value = { List (List ℕ × Role) };

    ghost view = { λ r. map granted r.grants.items };
}

/// Whether the two are the same token. Where they are as long, every byte is looked at: the time that this takes doesn't
/// tell where they differ.
fn is_same_token(one: &[u8], other: &[u8]) -> bool
    ensures { result ≡ bytes_eq one.now other.now }
{
    if one.len() != other.len() {
        return false;
    }
    let mut different = 0u8;
    for i in 0..one.len() {
        different |= one[i] ^ other[i];
    }
    different == 0
}

/// The role of the first of these with that token.
fn role_in<'g>(grants: &'g [Grant], token: &[u8]) -> Option<&'g Role>
    ensures { option_copied result ≡ role_of (map granted grants.now) token.now }
{
    for grant in grants {
        if is_same_token(&grant.token, token) {
            return Some(&grant.role);
        }
    }
    None
}

impl Roles {
    /// The roles of these tokens; `BadShape` where a token stands twice.
    pub fn new(grants: Vec<Grant>) -> Result<Roles, Refusal>
        ensures { result ≡ roles_of (map granted grants.items) }
    {
        for i in 0..grants.len() {
            if role_in(&grants[i + 1..], &grants[i].token).is_some() {
                return Err(Refusal::BadShape);
            }
        }
        Ok(Roles { grants })
    }

    /// The role of the token, where it is known. It takes no memory.
    pub fn find(&self, token: &[u8]) -> Option<&Role>
        ensures { option_copied result ≡ role_of self.now token.now }
    {
        role_in(&self.grants, token)
    }

    /// The tokens, each with its role.
    pub fn grants(&self) -> &[Grant]
        ensures { map granted result.now ≡ self.now }
    {
        &self.grants
    }

    /// The same roles again.
    pub fn copy(&self, alloc: Global) -> Result<Roles, AllocError>
        ensures { IfOk result (λ copy. copy ≡ self.now) }
    {
        let mut grants = Vec::with_capacity(alloc, self.grants.len())?;
        for grant in &self.grants {
            grants.push(grant.copy()?)?;
        }
        Ok(Roles { grants })
    }
}
