//! A writer that takes a few bytes a call, and of which a call fails.
use std::io;

/// Each call takes at most `most` bytes, and the one after `until` others fails.
#[derive(Drop)]
pub struct Few<'v> {
    pub out: &'v mut Vec<u8>,
    pub most: usize,
    pub until: Option<u64>,
}

impl io::Write for Few<'_> {
    fn write(&mut self, bytes: &[u8]) -> io::Result<usize> {
        match self.until {
            Some(0) => {
                self.until = None;
                return Err(io::ErrorKind::Other.into());
            }
            Some(n) => self.until = Some(n - 1),
            None => {}
        }
        let n = bytes.len().min(self.most);
        self.out.extend_from_slice(&bytes[..n])?;
        Ok(n)
    }

    fn flush(&mut self) -> io::Result<()> {
        Ok(())
    }
}
