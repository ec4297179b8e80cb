//! Who sees what a round goes through.
use crate::account::Account;
use crate::page::PageRead;
use adr_link::{HttpReply, LinkFault};
use adr_objects::Kind;
use adr_state::MirrorKey;

/// Sees what a round goes through, for the log. No contract says anything of it, and a round is the same whoever looks on.
pub trait Watch {
    /// A page of a kind was asked for behind so many elements; this came, which reads as that.
    fn page(
        &mut self,
        kind: Kind,
        skip: u64,
        account: Account,
        came: &Result<HttpReply, LinkFault>,
        page: &PageRead,
    );

    /// The object of a key was asked for.
    fn probe(&mut self, key: &MirrorKey, account: Account, came: &Result<HttpReply, LinkFault>);
}
