//! What waits for reports, in groups.
ghost use Rattle.std.specs.Prelude.{◌≡◌, [], IfOk, OnOk};
ghost use Rattle.adr_lent_image.specs.Merged.{last_for, before_last, with_one, first_for, after_first};

use crate::gathering::Gathering;
use adr_objects::Number;
use adr_text::{Refusal, Rows};
use std::alloc::{AllocError, Global};
use std::collections::VecDeque;
use std::marker::Model;

/// What waits for reports, as it came: what waits for one report stands together, behind its number.
pub struct Waiting<T> {
    groups: VecDeque<(Number, Rows<T>)>,
}

impl<T: Drop> Drop for Waiting<T> {
    fn drop(self) {
        let Waiting { groups: _ } = self;
    }
}

impl<T> Model for Waiting<T> {
    ghost use Rattle.std.specs.Prelude.{ℕ, List};
    ghost use Rattle.std.specs.Coded.{coded_list, coded×, coded_ℕ};

    ghost Value = { List (ℕ × List T) };

    ghost coded = { coded_list (coded× coded_ℕ (coded_list T.code)) };

    ghost view = { λ a. a.groups.items };
}

impl<T: Drop> Waiting<T> {
    /// Nothing waits yet. It takes no memory.
    pub(crate) fn new(alloc: Global) -> Waiting<T>
        ensures { result ≡ [] }
    {
        Waiting {
            groups: VecDeque::new(alloc),
        }
    }

    // What the last group has goes from there, where it waits for the report of a number; nothing where it waits for another.
    fn taken_last(&mut self, alloc: Global, report: Number) -> Result<Rows<T>, AllocError>
        ensures those { IfOk result (λ those. those ≡ last_for report self.old) }
        ensures left { OnOk result (self.new ≡ before_last report self.old) }
    {
        let Some(last) = self.groups.pop_back() else {
            return Ok(Rows::new(alloc));
        };
        if last.0 == report {
            return Ok(last.1);
        }
        self.groups.push_back(last)?;
        Ok(Rows::new(alloc))
    }

    // One more waits for the report of a number.
    fn put(&mut self, alloc: Global, report: Number, one: T) -> Result<(), AllocError>
        ensures { OnOk result (self.new ≡ with_one self.old (report, one)) }
    {
        let mut those = self.taken_last(alloc, report)?;
        those.push(one)?;
        Ok(self.groups.push_back((report, those))?)
    }

    /// What the first group has goes from there, where it waits for the report of a number; nothing where it waits for
    /// another.
    pub(crate) fn taken_first(
        &mut self,
        alloc: Global,
        report: Number,
    ) -> Result<Rows<T>, AllocError>
        ensures those { IfOk result (λ those. those ≡ first_for report self.old) }
        ensures left { OnOk result (self.new ≡ after_first report self.old) }
    {
        let Some(first) = self.groups.pop_front() else {
            return Ok(Rows::new(alloc));
        };
        if first.0 == report {
            return Ok(first.1);
        }
        self.groups.push_front(first)?;
        Ok(Rows::new(alloc))
    }
}

/// Each behind those that wait for its report, where it comes right after them.
impl<T: Drop> Gathering<(Number, T)> for Waiting<T> {
    ghost after = { with_one };

    fn gather(&mut self, alloc: Global, value: (Number, T)) -> Result<(), Refusal> {
        Ok(self.put(alloc, value.0, value.1)?)
    }
}
