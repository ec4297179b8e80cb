//! Programs and reports, of which no table keeps what is shown: what is shown of them is what they are.
use adr_objects::{Number, Stamps};
use adr_text::ObjectId;
use adr_view::{Content, Operation};

/// The key of a program or of a report.
pub enum ObjectKey {
    /// A program, by its upstream id.
    Program(ObjectId),
    /// A report, by its number.
    Report(Number),
}

impl Drop for ObjectKey {
    fn drop(self) {
        match self {
            ObjectKey::Program(_) => (),
            ObjectKey::Report(_) => (),
        }
    }
}

/// What stood at such a key before a command.
pub struct OldObject {
    pub key: ObjectKey,
    pub content: Option<Content>,
    /// The ven that owned the resource of a report.
    pub ven: Option<Number>,
}

impl Drop for OldObject {
    fn drop(self) {
        let OldObject {
            key: _,
            content: _,
            ven: _,
        } = self;
    }
}

/// A change of what stands at such a key.
pub struct ObjectChange {
    pub operation: Operation,
    /// What stands there now; where that goes, what stood there.
    pub content: Content,
    /// The stamps of that.
    pub stamps: Stamps,
    /// The ven that owns the resource of a report, or did where the report goes.
    pub ven: Option<Number>,
}

impl Drop for ObjectChange {
    fn drop(self) {
        let ObjectChange {
            operation: _,
            content: _,
            stamps: _,
            ven: _,
        } = self;
    }
}
