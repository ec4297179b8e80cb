//! Where the reading of a script stands.
ghost use Rattle.std.specs.Prelude.{◌<◌, ◌≤◌, length};
ghost use Rattle.adr_script.specs.Lines.{IsLine, most_bytes, most_lines};

/// The line that was begun, and what came before it; each is within its limit.
#[derive(Drop)]
pub(crate) struct Progress {
    /// The line so far.
    pub(crate) line: Vec<u8>,
    /// How many lines ended.
    pub(crate) seen: u64,
    /// How many of them were printed.
    pub(crate) printed: u64,
    ghost no_end: { IsLine line.items },
    ghost short: { length line.items ≤ most_bytes },
    ghost few: { seen ≤ most_lines },
    ghost room: { 0 < length line.items → seen < most_lines },
    ghost fewer: { printed ≤ seen },
}
