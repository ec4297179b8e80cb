//! Whether two outboxes hold the same.
use adr_delivery::{Addressee, Entry, Outbox};
use adr_objects::Number;
use adr_text::{ObjectId, Table};

fn is_same_addressee(addressee: &Addressee, other: &Addressee) -> bool {
    match (addressee, other) {
        (Addressee::Utility(event), Addressee::Utility(other)) => event == other,
        (
            Addressee::Subscriber {
                subscription,
                address,
                token,
            },
            Addressee::Subscriber {
                subscription: number,
                address: target,
                token: secret,
            },
        ) => subscription == number && address == target && token == secret,
        _ => false,
    }
}

fn is_same_entry(entry: &Entry, other: &Entry) -> bool {
    is_same_addressee(&entry.addressee, &other.addressee)
        && entry.operation == other.operation
        && entry.body == other.body
        && entry.delivery == other.delivery
}

fn has_entry(entries: &Table<Number, Entry>, number: &Number, entry: &Entry) -> bool {
    match entries.get(number) {
        Some(other) => is_same_entry(entry, other),
        None => false,
    }
}

fn are_same_entries(entries: &Table<Number, Entry>, others: &Table<Number, Entry>) -> bool {
    entries.len() == others.len()
        && entries
            .iter()
            .all(|(number, entry)| has_entry(others, number, entry))
}

fn are_same_remotes(
    remotes: &Table<ObjectId, ObjectId>,
    others: &Table<ObjectId, ObjectId>,
) -> bool {
    remotes.len() == others.len()
        && remotes
            .iter()
            .all(|(event, id)| others.get(event) == Some(id))
}

/// Whether both hold the same entries, the same ids of the utility, and the same counts.
pub fn is_same_outbox(outbox: &Outbox, other: &Outbox) -> bool {
    are_same_entries(&outbox.entries, &other.entries)
        && are_same_remotes(&outbox.remotes, &other.remotes)
        && outbox.counts == other.counts
}
