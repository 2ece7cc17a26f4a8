//! The version of the library as one number, which a program can compare with that of its header.

ghost use Rattle.std.specs.Prelude.{◌≡◌};
ghost use Rattle.deerlapse.specs.Version.{version};

const MAJOR: u32 = 0;

const MINOR: u32 = 1;

const PATCH: u32 = 0;

/// Returns the version of the library as one number: 0x010203 for version 1.2.3. The patch number has the lowest 8 bits, the
/// minor number the 8 bits above them, and the major number the rest.
#[unsafe(no_mangle)]
pub extern "C" fn deerlapse_version() -> u32
    ensures { result ≡ version 0 1 0 }
{
    MAJOR << 16 | MINOR << 8 | PATCH
}
