//! Files that are opened by name.

ghost use Rattle.std.specs.Prelude.{List, Result, ℕ};
ghost use Rattle.byte_streams.specs.declared.device.DeviceError.{DeviceError};

use byte_streams::{DeviceError, Source};

/// Where the program finds files by their names.
pub trait Files {
    type File: Source + Drop;

    /// What opening the file that has a name may answer: which file, with which bytes, or that it can't be opened.
    ghost opens: { Self → List ℕ → Result Self.File DeviceError → Type 0 };

    /// Opens a file for reading.
    fn open(&self, name: &str) -> Result<Self::File, DeviceError>
        ensures { opens self.now name.now result };
}
