//! The version of the library.
ghost use Rattle.std.specs.Prelude.{◌≡◌};

/// The version, which is that of `tardis.h`: 10000 for each major version, 100 for each minor one, 1 for each patch.
#[unsafe(no_mangle)]
pub extern "C" fn tardis_c_version() -> u32
    ensures { result ≡ 401 }
{
    401
}
