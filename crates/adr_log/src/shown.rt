//! What a line says.
ghost use Rattle.std.specs.Prelude.{◌≡◌, ◌≤◌, [], length};
ghost use Rattle.adr_log.specs.Shown.{is_shown, AreShown};

use arrayvec::ArrayString;
use std::fmt;
use std::fmt::Write;
use std::marker::Model;

/// How many characters a line has at most. With the end of the line it takes one write of 1,024 bytes.
pub const MOST_SHOWN: usize = 1_023;

/// How many of them the moment takes, for which room is kept.
const MOMENT: usize = 30;

/// Text from a space to `~`, of at most so many characters. What has no room is left out.
pub struct Shown {
    text: ArrayString<1_023>,
    /// How many characters it may have for now.
    most: usize,
}

impl Drop for Shown {
    fn drop(self) {
        let Shown { text: _, most: _ } = self;
    }
}

impl Model for Shown {
    ghost use Rattle.std.specs.Prelude.{List, ℕ};
    ghost use Rattle.adr_log.specs.Shown.{AreShown};

    ghost Value = { List ℕ };

    ghost view = { λ a. a.text.bytes };

    ghost invariant = { λ a. AreShown a.text.bytes };
}

fn is_shown(c: char) -> bool
    ensures { result ≡ is_shown c }
{
    ' ' <= c && c <= '~'
}

impl Shown {
    /// No text yet.
    pub fn new() -> Shown
        ensures { result ≡ [] }
    {
        Shown {
            text: ArrayString::new(),
            most: MOST_SHOWN - MOMENT,
        }
    }

    /// From now on it may take the room that is kept for the moment.
    pub(crate) fn open_end(&mut self)
        ensures { self.new ≡ self.old }
    {
        self.most = MOST_SHOWN;
    }

    /// What it is.
    pub fn as_str(&self) -> &str
        ensures text { result.now ≡ self.now }
        ensures shown { AreShown self.now }
        ensures short { length self.now ≤ 1_023 }
    {
        self.text.as_str()
    }

    // A character that is shown as it is; others are left out.
    fn push_plain(&mut self, c: char) {
        if is_shown(c) && self.text.len() < self.most {
            let _ = self.text.try_push(c);
        }
    }

    // Another one is shown by its number, as `\u{a}`.
    fn push_number(&mut self, c: char) {
        for part in c.escape_unicode() {
            self.push_plain(part);
        }
    }

    fn push(&mut self, c: char) {
        if is_shown(c) {
            self.push_plain(c);
        } else {
            self.push_number(c);
        }
    }
}

impl Write for Shown {
    fn write_str(&mut self, s: &str) -> fmt::Result {
        for c in s.chars() {
            self.push(c);
        }
        Ok(())
    }
}
