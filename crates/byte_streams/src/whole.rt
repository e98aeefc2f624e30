//! Reads all that a source has, and writes all of a text to a sink.
ghost use Rattle.std.specs.Prelude.{◌≡◌, ◌+◌, ◌<◌, ◌≤◌, IfOk, IfSome, OnOk, OnErr, IsErrOf, length};
ghost use Rattle.byte_streams.specs.Device.{AtEnd, Grows};
ghost use Rattle.byte_streams.specs.Whole.{GrowsByFront, ReadsAll, TakesAtMost};

use crate::device::{DeviceError, Sink, Source};
use std::alloc::{AllocFailed, Global};

/// Why not all bytes were read.
#[derive(Clone, Copy, Debug, PartialEq, Eq)]
pub enum ReadError {
    /// A call of the source failed.
    Device,
    /// Allocation failed for the bytes.
    NoMemory,
    /// The source has more bytes than the call allows.
    TooMany,
}

// How many bytes are asked for at once.
const BLOCK_BYTES: usize = 4096;

/// Reads all the bytes that are still to come, if they are `most` bytes or fewer. If there are more, it answers
/// TooMany as soon as they have come, at most a block of 4,096 bytes beyond them, so it returns on a device without an
/// end, too. If it answers an error, the bytes that came are lost.
pub fn read_all<S: Source>(alloc: Global, source: &mut S, most: usize) -> Result<Vec<u8>, ReadError>
    ensures all { IfOk result (λ bytes. ReadsAll (S.remaining source.old) bytes.items) }
    ensures few { IfOk result (λ bytes. length bytes.items ≤ most) }
    ensures end { OnOk result (IfSome (S.remaining source.old)
        (λ known. AtEnd (S.remaining source.new))) }
    ensures none_failed { OnOk result (S.failures source.new ≡ S.failures source.old) }
    ensures device { IsErrOf result ReadError.Device →
        S.failures source.old < S.failures source.new }
    ensures memory { IsErrOf result ReadError.NoMemory →
        S.failures source.new ≡ S.failures source.old }
    // No memory is wanted for a source that has no bytes.
    ensures some { IsErrOf result ReadError.NoMemory →
        IfSome (S.remaining source.old) (λ bytes. 0 < length bytes) }
    ensures counted { IsErrOf result ReadError.TooMany →
        S.failures source.new ≡ S.failures source.old }
    ensures many { IsErrOf result ReadError.TooMany →
        IfSome (S.remaining source.old) (λ bytes. most < length bytes) }
    ensures taken { TakesAtMost (most + BLOCK_BYTES)
        (S.remaining source.old) (S.remaining source.new) }
{
    let mut bytes = Vec::new(alloc);
    let mut buffer = [0u8; BLOCK_BYTES];
    for _ in 0..=most {
        let Ok(count) = source.read(&mut buffer) else {
            return Err(ReadError::Device);
        };
        if count == 0 {
            return Ok(bytes);
        }
        if count > most - bytes.len() {
            return Err(ReadError::TooMany);
        }
        if bytes.extend_from_slice(&buffer[..count]).is_err() {
            return Err(ReadError::NoMemory);
        }
    }
    Err(ReadError::TooMany)
}

/// Writes all of the bytes, in order. If a call fails, a beginning of them was written.
pub fn write_all<K: Sink>(sink: &mut K, bytes: &[u8]) -> Result<(), DeviceError>
    ensures all { OnOk result (Grows (K.contents sink.old) (K.contents sink.new) bytes.now) }
    ensures none_failed { OnOk result (K.failures sink.new ≡ K.failures sink.old) }
    ensures front { OnErr result
        (GrowsByFront (K.contents sink.old) (K.contents sink.new) bytes.now) }
    ensures failed { OnErr result (K.failures sink.old < K.failures sink.new) }
{
    let mut rest = bytes;
    while !rest.is_empty() {
        let count = sink.write(rest)?;
        let (_, after) = rest.split_at(count);
        rest = after;
    }
    Ok(())
}
