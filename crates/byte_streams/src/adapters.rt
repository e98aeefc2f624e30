//! Any reader as a source, and any writer as a sink.

ghost use Rattle.std.specs.Prelude.{◌≡◌};
ghost use Rattle.byte_streams.specs.Adapters.{reader_of, reads_failed, writer_of, writes_failed};

use crate::device::{DeviceError, Sink, Source};
use crate::tally::Tally;
use std::io::{Read, Write};

/// A reader as a source. Its calls fail if the reader answers an error.
#[derive(Drop)]
pub struct FromRead<R> {
    inner: R,
    failed: Tally,
}

impl<R> FromRead<R> {
    /// The reader's bytes from here on, with no failure so far.
    pub fn new(inner: R) -> FromRead<R>
        ensures reader { reader_of result ≡ inner }
        ensures fresh { reads_failed result ≡ 0 }
    {
        let failed = Tally::new();
        FromRead { inner, failed }
    }
}

impl<R: Read> Source for FromRead<R> {
    ghost remaining = { λ source. R.remaining (reader_of source) };

    ghost failures = { reads_failed };

    fn read(&mut self, buffer: &mut [u8]) -> Result<usize, DeviceError> {
        match self.inner.read(buffer) {
            Ok(count) => Ok(count),
            Err(_) => {
                self.failed.rise();
                Err(DeviceError)
            }
        }
    }
}

/// A writer as a sink. Its calls fail if the writer answers an error, or takes none of the bytes it is given.
#[derive(Drop)]
pub struct ToWrite<W> {
    inner: W,
    failed: Tally,
}

impl<W> ToWrite<W> {
    /// A sink that appends to what the writer holds, with no failure so far.
    pub fn new(inner: W) -> ToWrite<W>
        ensures writer { writer_of result ≡ inner }
        ensures fresh { writes_failed result ≡ 0 }
    {
        let failed = Tally::new();
        ToWrite { inner, failed }
    }

    /// The writer, with what was written to it.
    pub fn into_inner(self) -> W
        ensures { result ≡ writer_of self }
    {
        let ToWrite { inner, failed: _ } = self;
        inner
    }
}

impl<W: Write> Sink for ToWrite<W> {
    ghost contents = { λ sink. W.contents (writer_of sink) };

    ghost failures = { writes_failed };

    fn write(&mut self, bytes: &[u8]) -> Result<usize, DeviceError> {
        match self.inner.write(bytes) {
            Ok(count) if count > 0 || bytes.is_empty() => Ok(count),
            _ => {
                self.failed.rise();
                Err(DeviceError)
            }
        }
    }
}
