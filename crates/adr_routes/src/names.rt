//! What a path has where a text has braces.
ghost use Rattle.std.specs.Prelude.{◌≡◌, ◌++◌, map, IfOk, OnOk};
ghost use Rattle.adr_wire.specs.Cuts.{parts};
ghost use Rattle.adr_routes.specs.Shapes.{part_of, is_any, shape_of, one_name, names_in};

use adr_wire::parts;
use std::alloc::{AllocError, Global};

fn is_any(text: &[u8]) -> bool
    ensures { result ≡ is_any (part_of text.now) }
{
    match text.first() {
        Some(b) => *b == b'{',
        None => false,
    }
}

/// One more name, where the text has braces.
fn push_if<'p>(names: &mut Vec<&'p [u8]>, text: &[u8], given: &'p [u8]) -> Result<(), AllocError>
    ensures { OnOk result (map (λ s. s.now) names.new.items ≡ map (λ s. s.now) names.old.items ++ one_name (part_of text.now) given.now) }
{
    if is_any(text) {
        names.push(given)?;
    }
    Ok(())
}

/// The parts that stand where the text's parts have braces.
fn names_of<'p>(
    alloc: Global,
    texts: &[&[u8]],
    given: &[&'p [u8]],
) -> Result<Vec<&'p [u8]>, AllocError>
    ensures { IfOk result (λ v. map (λ s. s.now) v.items ≡ names_in (map part_of (map (λ s. s.now) texts.now)) (map (λ s. s.now) given.now)) }
{
    let mut names = Vec::new(alloc);
    let most = texts.len().min(given.len());
    for i in 0..most {
        push_if(&mut names, texts[i], given[i])?;
    }
    Ok(names)
}

/// What the path has where the text has braces.
pub(crate) fn names_in<'p>(
    alloc: Global,
    text: &str,
    path: &'p str,
) -> Result<Vec<&'p [u8]>, AllocError>
    ensures { IfOk result (λ v. map (λ s. s.now) v.items ≡ names_in (shape_of text.now) (parts 47 path.now)) }
{
    let texts = parts(alloc, b'/', text.as_bytes())?;
    let given = parts(alloc, b'/', path.as_bytes())?;
    names_of(alloc, &texts, &given)
}
