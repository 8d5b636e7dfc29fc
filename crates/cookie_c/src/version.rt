//! Which library a program has.
ghost use Rattle.std.specs.Prelude.{◌≡◌};
ghost use Rattle.cookie_c.specs.Codes.{header_version};

const VERSION: u32 = 3;

/// The number of the header that the library has: `COOKIE_VERSION` of cookie.h. It rises when a call or a struct
/// changes, and not when one is added.
#[unsafe(no_mangle)]
pub extern "C" fn cookie_version() -> u32
    ensures { result ≡ header_version }
{
    VERSION
}
