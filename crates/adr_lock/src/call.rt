//! What is asked of a book.
use adr_machine::{Command, Query};

/// A step or a look, by reference: who asks goes on to have what was asked.
#[derive(Clone, Copy)]
pub enum Call<'a> {
    Step(&'a Command),
    Look(&'a Query),
}
