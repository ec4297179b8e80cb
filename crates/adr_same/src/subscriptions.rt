//! Subscriptions, as they are posted and as they are shown.
use crate::sameness::Same;
use adr_subscription::{SubIn, SubObject, SubscriptionItem, Target};

impl Same for SubscriptionItem {
    fn is_same(&self, other: &SubscriptionItem) -> bool {
        self.objects.is_same(&other.objects)
            && self.operations.is_same(&other.operations)
            && self.callback_url.is_same(&other.callback_url)
            && self.bearer_token.is_same(&other.bearer_token)
    }
}

impl Same for Target {
    fn is_same(&self, other: &Target) -> bool {
        self.kind.is_same(&other.kind) && self.values.is_same(&other.values)
    }
}

impl Same for SubIn {
    fn is_same(&self, other: &SubIn) -> bool {
        self.client_name.is_same(&other.client_name)
            && self.program.is_same(&other.program)
            && self.items.is_same(&other.items)
            && self.targets.is_same(&other.targets)
    }
}

impl Same for SubObject {
    fn is_same(&self, other: &SubObject) -> bool {
        self.number.is_same(&other.number)
            && self.sub.is_same(&other.sub)
            && self.stamps.is_same(&other.stamps)
    }
}
