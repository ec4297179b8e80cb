//! The items of a subscription, each of which says of what it wants to be told, and where.
ghost use Rattle.std.specs.Prelude.{◌≡◌, option_map, IfOk};
ghost use Rattle.std.specs.List.{find};
ghost use Rattle.adr_subscription.specs.Matching.{has_kind, has_operation, asks_for, item_for};

use crate::bounded::Bounded;
use crate::free_text::FreeText;
use crate::subscription::SubIn;
use crate::token::BearerToken;
use crate::words::{ObjectKind, OperationKind};
use std::alloc::AllocError;

/// What is to be told, and where it is sent (OpenADR 3.0, objectOperations of a subscription). Words
/// may stand in it more than once, and stay in the order in which they were posted.
#[derive(Drop)]
pub struct SubscriptionItem {
    /// objects
    pub objects: Bounded<ObjectKind, 1, 6>,
    /// operations
    pub operations: Bounded<OperationKind, 1, 4>,
    /// callbackUrl
    pub callback_url: FreeText,
    /// bearerToken, which is never shown.
    pub bearer_token: Option<BearerToken>,
}

fn has_kind(item: &SubscriptionItem, kind: ObjectKind) -> bool
    ensures { result ≡ has_kind kind item.now }
{
    item.objects
        .as_slice()
        .iter()
        .any(|k| k.word() == kind.word())
}

fn has_operation(item: &SubscriptionItem, operation: OperationKind) -> bool
    ensures { result ≡ has_operation operation item.now }
{
    item.operations
        .as_slice()
        .iter()
        .any(|o| o.word() == operation.word())
}

fn asks_for(item: &SubscriptionItem, kind: ObjectKind, operation: OperationKind) -> bool
    ensures { result ≡ asks_for kind operation item.now }
{
    has_kind(item, kind) && has_operation(item, operation)
}

fn first_asking(
    items: &[SubscriptionItem],
    kind: ObjectKind,
    operation: OperationKind,
) -> Option<&SubscriptionItem>
    ensures { option_map (λ item. item.now) result ≡ find (asks_for kind operation) items.now }
{
    for item in items {
        if asks_for(item, kind, operation) {
            return Some(item);
        }
    }
    None
}

/// The item by which a change of an object of that kind is told, which was made by that operation: the
/// first that has the kind among its objects and the operation among its operations.
pub fn item_for(
    sub: &SubIn,
    kind: ObjectKind,
    operation: OperationKind,
) -> Option<&SubscriptionItem>
    ensures { option_map (λ item. item.now) result ≡ item_for kind operation sub.now }
{
    first_asking(sub.items.as_slice(), kind, operation)
}

fn same_kinds(kinds: &Bounded<ObjectKind, 1, 6>) -> Result<Bounded<ObjectKind, 1, 6>, AllocError>
    ensures { IfOk result (λ copy. copy ≡ kinds.now) }
{
    kinds.clone()
}

fn same_operations(
    operations: &Bounded<OperationKind, 1, 4>,
) -> Result<Bounded<OperationKind, 1, 4>, AllocError>
    ensures { IfOk result (λ copy. copy ≡ operations.now) }
{
    operations.clone()
}

fn same_token(token: &Option<BearerToken>) -> Result<Option<BearerToken>, AllocError>
    ensures { IfOk result (λ copy. copy ≡ token.now) }
{
    token.clone()
}

// A clone is the same value: what a caller reads is this, and not a field at a time.
impl Clone for SubscriptionItem {
    ghost is_clone = { λ x y. y ≡ x };

    fn clone(&self) -> Result<SubscriptionItem, AllocError> {
        Ok(SubscriptionItem {
            objects: same_kinds(&self.objects)?,
            operations: same_operations(&self.operations)?,
            callback_url: self.callback_url.clone()?,
            bearer_token: same_token(&self.bearer_token)?,
        })
    }
}
