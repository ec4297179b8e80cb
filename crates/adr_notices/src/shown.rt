//! What is shown before or after a command.
ghost use Rattle.std.specs.Prelude.{◌≡◌};
ghost use Rattle.std.specs.Option.{option_copied};
ghost use Rattle.adr_state.specs.Keys.{view_cmp, at};
ghost use Rattle.adr_notices.specs.Shown.{Side};

use adr_objects::Stamps;
use adr_state::{Base, ViewKey};
use adr_text::Table;
use adr_view::{Content, View, row_at};
use std::marker::Model;

/// A base, all that is shown of it, and the stamps of that.
#[derive(Drop)]
pub struct Shown<'s> {
    base: &'s Base,
    view: &'s View,
    stamps: &'s Table<ViewKey, Stamps>,
}

impl<'s> Model for Shown<'s> {
    ghost use Rattle.adr_notices.specs.Shown.{Side};

    ghost Value = { Side };

    ghost view = { λ s. record { base = s.base.now; view = s.view.now; stamps = s.stamps.now } };
}

impl<'s> Shown<'s> {
    /// Those three.
    pub fn new(base: &'s Base, view: &'s View, stamps: &'s Table<ViewKey, Stamps>) -> Shown<'s>
        ensures { result ≡ record { base = base.now; view = view.now; stamps = stamps.now } }
    {
        Shown { base, view, stamps }
    }

    /// The base.
    pub(crate) fn base(&self) -> &'s Base
        ensures { result.now ≡ self.now.base }
    {
        self.base
    }

    /// The stamps.
    pub(crate) fn stamps(&self) -> &'s Table<ViewKey, Stamps>
        ensures { result.now ≡ self.now.stamps }
    {
        self.stamps
    }

    /// What stands at a key.
    pub(crate) fn content_at(&self, key: &ViewKey) -> Option<&'s Content>
        ensures { option_copied result ≡ at view_cmp key.now self.now.view }
    {
        let view = self.view;
        row_at(view, key)
    }
}
