//! What sites and operators post.
ghost use Rattle.std.specs.Prelude.{◌≡◌, IsTrue};
ghost use Rattle.adr_text.specs.Faults.{Finds};
ghost use Rattle.adr_objects.specs.Limits.{is_resource_name, resource_name_of};

use crate::report::{ReportName, UsageIntervals};
use adr_text::{Fault, Name, ObjectId, Refusal};
use std::alloc::Global;
use std::marker::Model;

/// The name of a resource: a name other than `AGGREGATED_REPORT`, which stands for no resource
/// (OpenADR 3.0, resourceName of a report).
#[derive(Clone, PartialEq, Eq)]
pub struct ResourceName {
    name: Name,
}

impl Drop for ResourceName {
    fn drop(self) {
        let ResourceName { name: _ } = self;
    }
}

impl Model for ResourceName {
    ghost use Rattle.std.specs.Prelude.{List, ℕ, IsTrue};
    ghost use Rattle.adr_objects.specs.Limits.{is_resource_name};

    ghost Value = { List ℕ };

    ghost view = { λ a. a.name };

    ghost invariant = { λ a. IsTrue (is_resource_name a.name) };

    ghost inverse = { λ name. record { name = name } };
}

/// A ven as it is posted.
#[derive(Clone, Drop)]
pub struct VenIn {
    pub name: Name,
}

/// A resource as it is posted.
#[derive(Clone, Drop)]
pub struct ResourceIn {
    pub name: ResourceName,
}

/// A share as it is put: a weight, of which 0 removes the share. That it is at most 1,000,000 is
/// tested by the command.
#[derive(Clone, Copy, PartialEq, Eq)]
pub struct ShareIn {
    pub share: u32,
}

/// A report as it is posted (OpenADR 3.0, REPORT).
#[derive(Clone, Drop)]
pub struct ReportIn {
    /// programID
    pub program: ObjectId,
    /// eventID: the id of a shown event.
    pub event: ObjectId,
    /// clientName
    pub client: Name,
    /// reportName
    pub name: Option<ReportName>,
    /// resourceName of the one member of resources.
    pub resource_name: Name,
    /// intervals of that member, each with its `USAGE`, where it says one.
    pub intervals: UsageIntervals,
}

impl ResourceName {
    /// The name of a resource that the text is.
    pub fn new(alloc: Global, text: &str) -> Result<ResourceName, Fault>
        ensures { Finds (λ name. name) result (resource_name_of text.now) }
    {
        if text == "AGGREGATED_REPORT" {
            return Err(Fault::BadShape);
        }
        match Name::new(alloc, text) {
            Ok(name) => Ok(ResourceName { name }),
            Err(Refusal::OutOfMemory) => Err(Fault::OutOfMemory),
            Err(_) => Err(Fault::BadShape),
        }
    }

    /// The same name, as any other.
    pub fn as_name(&self) -> &Name
        ensures value { result.now ≡ self.now }
        ensures valid { IsTrue (is_resource_name self.now) }
    {
        &self.name
    }
}
