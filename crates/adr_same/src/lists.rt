//! Values that hold others: an option, a list, a set.
ghost use Rattle.std.specs.Prelude.{◌≡◌, ◌↔◌, IsTrue};

use crate::sameness::Same;
use adr_objects::{HasId, IntervalList, NameSet};
use adr_subscription::Bounded;
use adr_text::Rows;

impl<T: Same> Same for Option<T> {
    fn is_same(&self, other: &Option<T>) -> bool {
        match (self, other) {
            (Some(one), Some(another)) => one.is_same(another),
            (None, None) => true,
            _ => false,
        }
    }
}

/// Whether two lists have the same items in the same order.
pub(crate) fn is_same_list<T: Same>(list: &[T], other: &[T]) -> bool
    ensures { IsTrue result ↔ list.now ≡ other.now }
{
    let mut others = other.iter();
    for item in list {
        match others.next() {
            Some(another) if item.is_same(another) => (),
            _ => return false,
        }
    }
    others.next().is_none()
}

impl<T: Same> Same for Rows<T> {
    fn is_same(&self, other: &Rows<T>) -> bool {
        is_same_list(self.as_slice(), other.as_slice())
    }
}

impl<T: HasId + Same> Same for IntervalList<T> {
    fn is_same(&self, other: &IntervalList<T>) -> bool {
        is_same_list(self.as_slice(), other.as_slice())
    }
}

impl<T: Same, const LEAST: usize, const MOST: usize> Same for Bounded<T, LEAST, MOST> {
    fn is_same(&self, other: &Bounded<T, LEAST, MOST>) -> bool {
        is_same_list(self.as_slice(), other.as_slice())
    }
}

impl Same for NameSet {
    fn is_same(&self, other: &NameSet) -> bool {
        let mut other_names = other.iter();
        for name in self.iter() {
            match other_names.next() {
                Some(another) if name.is_same(another) => (),
                _ => return false,
            }
        }
        other_names.next().is_none()
    }
}
