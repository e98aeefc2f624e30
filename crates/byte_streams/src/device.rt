//! A source of bytes and a sink for bytes.

ghost use Rattle.std.specs.Prelude.{ℕ, List, Option};
ghost use Rattle.byte_streams.specs.Device.{GivesBytes, TakesBytes, Counts};

/// A call of the device failed.
#[derive(Clone, Copy, Debug, PartialEq, Eq)]
pub struct DeviceError;

/// Where bytes come from.
pub trait Source {
    /// The bytes that are still to come, where they are known.
    ghost remaining: { Self → Option (List ℕ) };

    /// How many calls have failed.
    ghost failures: { Self → ℕ };

    /// Puts the next bytes into the front of the buffer, and answers how many. It answers 0 only at the end, or if the
    /// buffer is empty.
    fn read(&mut self, buffer: &mut [u8]) -> Result<usize, DeviceError>
        ensures bytes { GivesBytes (remaining self.old) (remaining self.new) result buffer.new }
        ensures count { Counts (failures self.old) (failures self.new) result };
}

/// Where bytes go.
pub trait Sink {
    /// The bytes that were written, where they are known.
    ghost contents: { Self → Option (List ℕ) };

    /// How many calls have failed.
    ghost failures: { Self → ℕ };

    /// Takes some bytes of the front, and answers how many. To take none, unless there are none, is a failure.
    fn write(&mut self, bytes: &[u8]) -> Result<usize, DeviceError>
        ensures bytes { TakesBytes (contents self.old) (contents self.new) result bytes.now }
        ensures count { Counts (failures self.old) (failures self.new) result };
}
