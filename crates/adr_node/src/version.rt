//! Which version this is. `runs/docs` holds both against what else says them.

/// That of the program, as `CHANGELOG.md` has it.
pub const VERSION: &str = "0.3";

/// That of the tables in a file that it keeps, whatever they were before it began.
pub const TABLES: u32 = 2;
