//! A desk over a file may go to another thread.
use crate::desk::FileDesk;

fn sent<T: Send>(_value: &T) {}

/// It may.
pub fn file_desk_is_sent(desk: &FileDesk) {
    sent(desk);
}
