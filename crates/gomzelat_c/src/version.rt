//! The edition of the library.
ghost use Rattle.std.specs.Prelude.{◌≡◌};

/// Returns the edition of the calls and structures, which a caller compares with that of its header.
#[unsafe(no_mangle)]
pub extern "C" fn gomzelat_version() -> u32
    ensures edition { result ≡ 2 }
{
    2
}
