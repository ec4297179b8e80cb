//! The query of a listing (OpenADR 3.0, skip and limit).
ghost use Rattle.std.specs.Prelude.{◌≡◌, map, IfOk};
ghost use Rattle.std.specs.Cow.{cow_str_bytes};
ghost use Rattle.std.specs.Option.{option_copied};
ghost use Rattle.form_urlencoded.specs.Form.{raw_pairs};
ghost use Rattle.adr_text.specs.Refusals.{Gives};
ghost use Rattle.adr_asked.specs.Queries.{values_of, only_one, number_or, number_in, page_asked, decoded_text};
ghost use Rattle.std.specs.Prelude.{bytes_eq};

use adr_machine::{Page, number_within};
use adr_text::Refusal;
use form_urlencoded::{decode, raw_pairs};
use std::alloc::{AllocError, Global};
use std::borrow::CowStr;

/// Whether the decoded name is this one.
fn is_named(alloc: Global, encoded: &[u8], name: &str) -> Result<bool, AllocError>
    ensures { IfOk result (λ is. is ≡ bytes_eq (decoded_text encoded.now) name.now) }
{
    let decoded = decode(alloc, encoded)?;
    Ok(decoded.as_str() == name)
}

fn decoded(alloc: Global, encoded: &[u8]) -> Result<CowStr<'_>, AllocError>
    ensures { IfOk result (λ text. cow_str_bytes text ≡ decoded_text encoded.now) }
{
    decode(alloc, encoded)
}

/// The values of the parameter of a name, decoded, in their order.
#[tactic(auto, unfolding(crate::specs::Queries::values_of))]
pub(crate) fn values_of<'q>(
    alloc: Global,
    name: &str,
    query: &'q [u8],
) -> Result<Vec<CowStr<'q>>, AllocError>
    ensures { IfOk result (λ values. map cow_str_bytes values.items ≡ values_of name.now (raw_pairs query.now)) }
{
    let mut values = Vec::new(alloc);
    for (key, value) in raw_pairs(query) {
        if is_named(alloc, key, name)? {
            values.push(decoded(alloc, value)?)?;
        }
    }
    Ok(values)
}

/// The value of a parameter that is given at most once.
pub(crate) fn only_one<'v>(values: &'v [CowStr<'_>]) -> Result<Option<&'v str>, Refusal>
    ensures { Gives (λ value. option_copied value) result (only_one (map cow_str_bytes values.now)) }
{
    match values {
        [] => Ok(None),
        [value] => Ok(Some(value.as_str())),
        _ => Err(Refusal::BadShape),
    }
}

/// The number that a value is, or the default where there is none.
fn number_or(default: u32, most: u32, value: Option<&str>) -> Result<u32, Refusal>
    ensures { result ≡ number_or default most (option_copied value.entry) }
{
    let Some(value) = value else {
        return Ok(default);
    };
    match number_within(most as u64, value.as_bytes()) {
        Some(number) => Ok(number as u32),
        None => Err(Refusal::BadShape),
    }
}

#[tactic(auto, unfolding(crate::specs::Queries::number_in))]
fn number_in(
    alloc: Global,
    name: &str,
    default: u32,
    most: u32,
    query: &[u8],
) -> Result<u32, Refusal>
    ensures { Gives (λ n. n) result (number_in name.now default most query.now) }
{
    let values = values_of(alloc, name, query)?;
    number_or(default, most, only_one(&values)?)
}

/// The part of a listing that a query asks for; `BadShape` where it asks in another form.
#[tactic(auto, unfolding(crate::specs::Queries::page_asked))]
pub(crate) fn page_asked(alloc: Global, query: &[u8]) -> Result<Page, Refusal>
    ensures { Gives (λ page. page) result (page_asked query.now) }
{
    let skip = number_in(alloc, "skip", 0, 2_147_483_647, query)?;
    let limit = number_in(alloc, "limit", 50, 50, query)?;
    Ok(Page { skip, limit })
}
