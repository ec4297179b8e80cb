//! Why a request was not served.
use thiserror::Error;

/// Why a request was not served. Where memory runs out, that is what is replied.
#[derive(Clone, Copy, Debug, PartialEq, Eq, Error)]
pub enum ServeFault {
    /// A read failed, or there were too many: nothing is replied, and no step is taken.
    #[error("read fault")]
    Read,
    /// A write failed: a part of the reply is written, and the step stays.
    #[error("write fault")]
    Write,
}
