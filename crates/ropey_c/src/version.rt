//! The version of the library as one number: 1.2.3 is 1,002,003.
ghost use Rattle.std.specs.Prelude.{◌≡◌};

/// Major, minor and patch version: `major * 1_000_000 + minor * 1_000 + patch`.
pub const VERSION: u32 = 1_000_000;

/// The version of the library, as `VERSION` has it.
#[unsafe(no_mangle)]
pub extern "C" fn ropey_version() -> u32
    ensures { result ≡ VERSION }
{
    VERSION
}
