//! Tokens with their roles.
ghost use Rattle.std.specs.Prelude.{◌≡◌, IfOk, map};
ghost use Rattle.serde_json.specs.View.{view};
ghost use Rattle.adr_text.specs.Fields.{each, objects_in};
ghost use Rattle.adr_http.specs.Roles.{granted};
ghost use Rattle.adr_config.specs.Grants.{plain, of_ven, role_named, token_in, grant_of, roles_in};
ghost use Rattle.adr_config.specs.Tellings.{Tells};

use crate::fault::ConfigFault;
use crate::place::Place;
use crate::texts::{maybe_text, needed_text};
use crate::wrong::{Why, Wrong};
use adr_http::{Grant, Roles};
use adr_machine::Role;
use adr_subscription::{BearerToken, FreeText};
use adr_text::{Fault, ObjectId, list, member, objects};
use serde_json::Value;
use std::alloc::{AllocError, Global};

/// A token as it is written, and its role.
#[derive(Drop)]
pub(crate) struct TokenIn {
    pub(crate) token: BearerToken,
    pub(crate) role: Role,
}

// A role that is no ven's has no id.
fn plain(role: Role, ven: Option<ObjectId>) -> Result<Role, Fault>
    ensures { result ≡ plain role ven }
{
    match ven {
        None => Ok(role),
        Some(_) => Err(Fault::BadShape),
    }
}

fn of_ven(ven: Option<ObjectId>) -> Result<Role, Fault>
    ensures { result ≡ of_ven ven }
{
    Ok(Role::Ven(ven.ok_or(Fault::BadShape)?))
}

fn role_named(name: &str, ven: Option<ObjectId>) -> Result<Role, Fault>
    ensures { result ≡ role_named name.now ven }
{
    match name {
        "operator" => plain(Role::Operator, ven),
        "utility" => plain(Role::Utility, ven),
        "ven" => of_ven(ven),
        _ => Err(Fault::BadShape),
    }
}

/// What is wrong where no role comes of that name, beside an id or without one.
fn no_role(name: &str, item: usize) -> Wrong {
    match name {
        "operator" | "utility" => Place::VenId(item).wrong(Why::OfNoVen),
        "ven" => Place::VenId(item).wrong(Why::Missing),
        _ => Place::Role(item).wrong(Why::NoRole),
    }
}

/// The role of that name, or what is wrong in that item.
fn role_told(name: &str, ven: Option<ObjectId>, item: usize) -> Result<Role, ConfigFault>
    ensures { Tells (λ role. role) result (role_named name.now ven) }
{
    match role_named(name, ven) {
        Ok(role) => Ok(role),
        Err(fault) => Err(no_role(name, item).told(fault)),
    }
}

/// The token with its role that an item says, the one of that number.
#[tactic(auto, unfolding(crate::specs::Grants::token_in))]
fn token_in(alloc: Global, value: &Value, item: usize) -> Result<TokenIn, ConfigFault>
    ensures { Tells (λ said. said) result (token_in (view value.now)) }
{
    let token = needed_text(alloc, value, "token", Place::Token(item), Why::NoToken)?;
    let name: FreeText = needed_text(alloc, value, "role", Place::Role(item), Why::NoText)?;
    let ven = maybe_text(alloc, value, "venID", Place::VenId(item), Why::NoId)?;
    let role = role_told(name.as_str(), ven, item)?;
    Ok(TokenIn { token, role })
}

/// The tokens with their roles that items say, each in its place.
fn tokens_in(alloc: Global, items: &[Value]) -> Result<Vec<TokenIn>, ConfigFault>
    ensures { Tells (λ said. said.items) result (each token_in (map view items.now)) }
{
    let mut said = Vec::new(alloc);
    for i in 0..items.len() {
        said.push(token_in(alloc, &items[i], i)?)?;
    }
    Ok(said)
}

fn grant(alloc: Global, said: TokenIn) -> Result<Grant, AllocError>
    ensures { IfOk result (λ grant. granted grant ≡ grant_of said) }
{
    Ok(Grant {
        token: Vec::from_slice(alloc, said.token.as_str().as_bytes())?,
        role: said.role,
    })
}

fn grants(alloc: Global, said: Vec<TokenIn>) -> Result<Vec<Grant>, AllocError>
    ensures { IfOk result (λ grants. map granted grants.items ≡ map grant_of said.items) }
{
    let mut grants = Vec::new(alloc);
    for token in said {
        grants.push(grant(alloc, token)?)?;
    }
    Ok(grants)
}

/// Why a value is no list of objects: an item is none, or it is no list.
fn no_objects(value: &Value) -> Wrong {
    let first = match list(value) {
        Ok(items) => items.iter().position(|item| !item.is_object()),
        Err(_) => None,
    };
    match first {
        Some(i) => Place::Item(i).wrong(Why::NoObject),
        None => Place::Tokens.wrong(Why::NoList),
    }
}

/// The items of the list.
fn items(value: &Value) -> Result<&[Value], ConfigFault>
    ensures { Tells (λ items. map view items.now) result (objects_in (view value.now)) }
{
    match objects(value) {
        Ok(items) => Ok(items),
        Err(fault) => Err(no_objects(value).told(fault)),
    }
}

fn has_token(items: &[Value], token: &str) -> bool {
    items.iter().any(|item| is_token(item, token))
}

fn is_token(item: &Value, token: &str) -> bool {
    match member(item, "token") {
        Some(said) => said.as_str() == Some(token),
        None => false,
    }
}

/// Where a token stands that is the same as in an item before.
fn repeated(items: &[Value]) -> Place {
    for i in 0..items.len() {
        if let Some(said) = member(&items[i], "token")
            && let Some(token) = said.as_str()
            && has_token(&items[..i], token)
        {
            return Place::Token(i);
        }
    }
    Place::Tokens
}

/// The tokens with their roles, none of which stands twice.
#[tactic(auto, unfolding(crate::specs::Grants::roles_in))]
pub(crate) fn roles(alloc: Global, value: &Value) -> Result<Roles, ConfigFault>
    ensures { Tells (λ roles. roles) result (roles_in (view value.now)) }
{
    let items = items(value)?;
    let said = tokens_in(alloc, items)?;
    match Roles::new(grants(alloc, said)?) {
        Ok(roles) => Ok(roles),
        Err(_) => Err(ConfigFault::Wrong(repeated(items).wrong(Why::Repeated))),
    }
}
