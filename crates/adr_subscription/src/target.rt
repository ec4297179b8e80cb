//! The targets of a subscription, which narrow the events that it is told of.
ghost use Rattle.std.specs.Prelude.{◌≡◌, IfOk};
ghost use Rattle.adr_subscription.specs.Matching.{has_value, names, one_names, none_or_one_names, is_targeted};

use crate::bounded::Bounded;
use crate::free_text::FreeText;
use crate::subscription::SubIn;
use adr_text::Name;
use std::alloc::AllocError;

/// A target: a type, and the values of that type (OpenADR 3.0, targets of a subscription).
pub struct Target {
    /// type
    pub kind: FreeText,
    /// values
    pub values: Bounded<FreeText, 0, 1000>,
}

impl Drop for Target {
    fn drop(self) {
        let Target { kind: _, values: _ } = self;
    }
}

fn has_value(target: &Target, name: &str) -> bool
    ensures { result ≡ has_value name.now target.now }
{
    target
        .values
        .as_slice()
        .iter()
        .any(|value| value.as_str() == name)
}

fn names(target: &Target, ven_name: &str, resource_name: &str) -> bool
    ensures { result ≡ names ven_name.now resource_name.now target.now }
{
    match target.kind.as_str() {
        "VEN_NAME" => has_value(target, ven_name),
        "RESOURCE_NAME" => has_value(target, resource_name),
        _ => false,
    }
}

fn one_names(targets: &[Target], ven_name: &str, resource_name: &str) -> bool
    ensures { result ≡ one_names ven_name.now resource_name.now targets.now }
{
    targets
        .iter()
        .any(|target| names(target, ven_name, resource_name))
}

fn none_or_one_names(targets: &[Target], ven_name: &str, resource_name: &str) -> bool
    ensures { result ≡ none_or_one_names ven_name.now resource_name.now targets.now }
{
    targets.is_empty() || one_names(targets, ven_name, resource_name)
}

/// Whether a subscription is about an event of that resource of that ven: it has no target, or one
/// that names the ven or the resource.
pub fn is_targeted(sub: &SubIn, ven_name: &Name, resource_name: &Name) -> bool
    ensures { result ≡ is_targeted ven_name.now resource_name.now sub.now }
{
    match &sub.targets {
        Some(targets) => none_or_one_names(
            targets.as_slice(),
            ven_name.as_str(),
            resource_name.as_str(),
        ),
        None => true,
    }
}

fn same_values(
    values: &Bounded<FreeText, 0, 1000>,
) -> Result<Bounded<FreeText, 0, 1000>, AllocError>
    ensures { IfOk result (λ copy. copy ≡ values.now) }
{
    values.clone()
}

// A clone is the same value: what a caller reads is this, and not a field at a time.
impl Clone for Target {
    ghost is_clone = { λ x y. y ≡ x };

    fn clone(&self) -> Result<Target, AllocError> {
        Ok(Target {
            kind: self.kind.clone()?,
            values: same_values(&self.values)?,
        })
    }
}
