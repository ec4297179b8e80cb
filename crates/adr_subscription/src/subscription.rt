//! A subscription.
ghost use Rattle.std.specs.Prelude.{◌≡◌, IfOk};

use crate::bounded::Bounded;
use crate::item::SubscriptionItem;
use crate::target::Target;
use adr_text::{Name, ObjectId};
use std::alloc::AllocError;

/// A subscription as it is posted (OpenADR 3.0, SUBSCRIPTION). That its addresses may be called is
/// tested by the command.
#[derive(Drop)]
pub struct SubIn {
    /// clientName
    pub client_name: Name,
    /// programID; without one it is about all programs.
    pub program: Option<ObjectId>,
    /// objectOperations
    pub items: Bounded<SubscriptionItem, 1, 16>,
    /// targets
    pub targets: Option<Bounded<Target, 0, 100>>,
}

fn same_program(program: &Option<ObjectId>) -> Result<Option<ObjectId>, AllocError>
    ensures { IfOk result (λ copy. copy ≡ program.now) }
{
    program.clone()
}

fn same_items(
    items: &Bounded<SubscriptionItem, 1, 16>,
) -> Result<Bounded<SubscriptionItem, 1, 16>, AllocError>
    ensures { IfOk result (λ copy. copy ≡ items.now) }
{
    items.clone()
}

fn same_targets(
    targets: &Option<Bounded<Target, 0, 100>>,
) -> Result<Option<Bounded<Target, 0, 100>>, AllocError>
    ensures { IfOk result (λ copy. copy ≡ targets.now) }
{
    targets.clone()
}

// A clone is the same value: what a caller reads is this, and not a field at a time.
impl Clone for SubIn {
    ghost is_clone = { λ x y. y ≡ x };

    fn clone(&self) -> Result<SubIn, AllocError> {
        Ok(SubIn {
            client_name: self.client_name.clone()?,
            program: same_program(&self.program)?,
            items: same_items(&self.items)?,
            targets: same_targets(&self.targets)?,
        })
    }
}
