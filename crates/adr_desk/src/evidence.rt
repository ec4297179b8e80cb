//! Evidence on the tables, with what it touches.
ghost use Rattle.std.specs.Prelude.{◌⊎◌, ◌≡◌, [], ◌∷◌, IfOk, IfErr, if◌then◌else◌};
ghost use Rattle.adr_text.specs.declared.refusal.Refusal.TheVariants.{LimitReached};
ghost use Rattle.adr_sql.specs.Calls.{LeavesLent};
ghost use Rattle.adr_db.specs.Calls.{IsOfStore};
ghost use Rattle.adr_machine.specs.declared.command.Command.{Command as CommandOf};
ghost use Rattle.adr_desk.specs.Decisions.{CarriesOut, IsAnswered, found_decided, gone_decided};

use adr_db::Meta;
use adr_machine::Outcome;
use adr_mirror::{gone, put_evidence};
use adr_objects::{Found, Kind};
use adr_state::{Limits, MirrorKey};
use adr_text::{ObjectId, Refusal, Rows};
use adr_touched::{Touched, stood_program, stood_programs, touched_by_evidence};
use sqlite::{Alter, Transaction};
use std::alloc::{AllocError, Global};

/// Versions join the mirror. The programs among them are read before, and what rose is known behind it.
pub(crate) fn found<S: Alter>(
    alloc: Global,
    tx: &mut Transaction<'_, S>,
    limits: &Limits,
    meta: &mut Meta,
    founds: &[Found],
    polled: bool,
) -> Result<(Outcome, Touched), Refusal>
    ensures lent { LeavesLent S.Store tx.old.conn tx.new.conn result }
    ensures carries { CarriesOut S.Store tx.old.conn.now tx.new.conn.now (found_decided limits.now founds.now polled) meta.old meta.new result }
    ensures answered { (command : CommandOf) → IfOk result (λ r. IsAnswered command r.0) }
    ensures refused { IfErr result (λ refusal. IsOfStore refusal ⊎ (refusal ≡ LimitReached)) }
{
    let programs = stood_programs(alloc, tx, founds)?;
    let risen = put_evidence(alloc, tx, limits, meta, founds, polled)?;
    let touched = touched_by_evidence(alloc, programs, risen)?;
    Ok((Outcome::Counted, touched))
}

// The key, where it rose.
fn risen_key(
    alloc: Global,
    kind: Kind,
    id: &ObjectId,
    rose: bool,
) -> Result<Rows<MirrorKey>, AllocError>
    ensures { IfOk result (λ keys. keys ≡ (if rose then record { kind = kind; id = id.now } ∷ [] else [])) }
{
    let mut keys = Rows::new(alloc);
    if rose {
        keys.push(MirrorKey {
            kind,
            id: id.copy(alloc)?,
        })?;
    }
    Ok(keys)
}

/// A deletion joins the mirror.
pub(crate) fn deleted<S: Alter>(
    alloc: Global,
    tx: &mut Transaction<'_, S>,
    limits: &Limits,
    meta: &mut Meta,
    kind: Kind,
    id: &ObjectId,
) -> Result<(Outcome, Touched), Refusal>
    ensures lent { LeavesLent S.Store tx.old.conn tx.new.conn result }
    ensures carries { CarriesOut S.Store tx.old.conn.now tx.new.conn.now (gone_decided limits.now (record { kind = kind; id = id.now })) meta.old meta.new result }
    ensures answered { (command : CommandOf) → IfOk result (λ r. IsAnswered command r.0) }
    ensures refused { IfErr result (λ refusal. IsOfStore refusal ⊎ (refusal ≡ LimitReached)) }
{
    let programs = stood_program(alloc, tx, kind, id)?;
    let rose = gone(alloc, tx, limits, meta, kind, id)?;
    let risen = risen_key(alloc, kind, id, rose)?;
    let touched = touched_by_evidence(alloc, programs, risen)?;
    Ok((Outcome::Counted, touched))
}
