//! The version of the library.

ghost use Rattle.std.specs.Prelude.{◌≡◌};

/// Returns the version of the library: 65,536 times the major number, plus 256 times the minor
/// number, plus the patch number.
#[unsafe(no_mangle)]
pub extern "C" fn kombilad_version() -> u32
    ensures { result ≡ 0x000200 }
{
    0x000200
}
