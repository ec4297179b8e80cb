//! The whole state, of which each table is read as its rows are lent.
ghost use Rattle.std.specs.Prelude.{◌≡◌, false, IfOk, IfErr};
ghost use Rattle.sqlite.specs.Held.{state};
ghost use Rattle.sqlite.specs.State.{HasCleanDisk};
ghost use Rattle.adr_text.specs.declared.refusal.Refusal.TheVariants.{Store};
ghost use Rattle.adr_state.specs.Fitting.{Fits};
ghost use Rattle.adr_db.specs.Kept.{Kept, Keeps};
ghost use Rattle.adr_db.specs.Calls.{IsOfStore};
ghost use Rattle.adr_desk.specs.Transactions.{IsDropped};
ghost use Rattle.adr_db.specs.Images.{image_kept};

use adr_lent_image::image_of;
use adr_state::{Image, State};
use adr_text::Refusal;
use sqlite::{Alter, Connection};
use std::alloc::Global;

// Tables of a node hold a state that is an image; one that is none is the store's refusal.
fn of_store(state: State) -> Result<Image, Refusal>
    ensures ok { IfOk result (λ image. image ≡ state) }
    ensures refused { IfErr result (λ refusal. (refusal ≡ Store) × (¬ (Fits state))) }
{
    Image::of(state).ok_or(Refusal::Store)
}

/// The whole state, which stays. Each table is read row by row, one after another, and nothing is written, so a crash leaves
/// what it could before.
pub(crate) fn image_in<S: Alter>(alloc: Global, conn: &mut Connection<S>) -> Result<Image, Refusal>
    requires { conn.old.in_transaction ≡ false }
    ensures finds { HasCleanDisk (state S.Store conn.new) → IfOk result (λ image. (kept : Kept) → Keeps kept (state S.Store conn.old) → image ≡ image_kept kept) }
    ensures dropped { IsDropped S.Store conn.old conn.new }
    ensures refused { IfErr result IsOfStore }
{
    let is_settled = conn.is_autocommit();
    prove!(is_settled);
    of_store(image_of(alloc, conn)?)
}
