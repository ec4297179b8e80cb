//! Tests of both halves of HTTP, of what no clause says: each public call of the server's with ample memory, reads and
//! writes that fail at each place, and that nothing is read behind a request or a reply. Tables of bytes are data of the
//! programs `served_rows` and `link_rows`.
#![tactic(auto)]

#[cfg(test)]
mod calls;
#[cfg(test)]
mod faults;
#[cfg(test)]
mod few;
#[cfg(test)]
mod front;
#[cfg(test)]
mod replies;
