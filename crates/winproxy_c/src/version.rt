ghost use Rattle.std.specs.Prelude.{◌≡◌};

/// The version of this interface: it grows where a function is changed or goes.
#[unsafe(no_mangle)]
pub extern "C" fn winproxy_version() -> u32
    ensures { result ≡ 1 }
{
    1
}
