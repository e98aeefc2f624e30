//! The files of the host.

use crate::files::Files;
use byte_streams::{DeviceError, FromRead};
use std::fs::File;

/// The host's files; contracts know nothing of them before they are read.
#[derive(Clone, Copy)]
pub(crate) struct HostFiles<'a> {
    pub(crate) rt: &'a HostRuntime,
}

impl Files for HostFiles<'_> {
    type File = FromRead<File>;

    ghost opens = { λ _ _ _. Unit {0} };

    fn open(&self, name: &str) -> Result<FromRead<File>, DeviceError> {
        match File::open(self.rt, name) {
            Ok(file) => Ok(FromRead::new(file)),
            Err(_) => Err(DeviceError),
        }
    }
}
