//! A reader or writer of few bytes and calls.

ghost use Rattle.std.specs.Prelude.{◌≤◌, IfOk};

use std::io;
use std::io::{Read, Write};

/// A reader or writer that moves at most `step` bytes a call, and fails after `calls` calls.
#[derive(Drop)]
pub struct Limited<T> {
    pub inner: T,
    pub step: usize,
    pub calls: u32,
}

impl<T> Limited<T> {
    // How many of so many bytes the next call moves at most.
    fn most(&mut self, len: usize) -> io::Result<usize>
        ensures { IfOk result (λ most. most ≤ len) }
    {
        if self.calls == 0 {
            return Err(io::Error::from(io::ErrorKind::BrokenPipe));
        }
        self.calls -= 1;
        Ok(len.min(self.step))
    }
}

impl<T: Read> Read for Limited<T> {
    fn read(&mut self, buffer: &mut [u8]) -> io::Result<usize> {
        let most = self.most(buffer.len())?;
        self.inner.read(&mut buffer[..most])
    }
}

impl<T: Write> Write for Limited<T> {
    fn write(&mut self, bytes: &[u8]) -> io::Result<usize> {
        let most = self.most(bytes.len())?;
        self.inner.write(&bytes[..most])
    }

    fn flush(&mut self) -> io::Result<()> {
        Ok(())
    }
}
