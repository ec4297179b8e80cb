//! A desk may go to another thread.
use crate::desk::{MemoryDesk, SqlDesk};
use sqlite::{Alter, File, FileStore};

fn sent<T: Send>(_value: &T) {}

/// One in memory may.
pub fn memory_is_sent(desk: &MemoryDesk) {
    sent(desk);
}

/// So may one over a file.
pub fn file_is_sent(desk: &SqlDesk<FileStore<File>>) {
    sent(desk);
}

/// And one over each store that may.
pub fn each_is_sent<S: Alter + Send>(desk: &SqlDesk<S>) {
    sent(desk);
}
