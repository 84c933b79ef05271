// The number of this library's binary interface.
ghost use Rattle.std.specs.Prelude.{◌≡◌};
ghost use Rattle.cuwelfra.specs.Abi.{abi};

// For a program that asks.
#[unsafe(no_mangle)]
pub extern "C" fn cuwelfra_abi() -> u64
    ensures { result ≡ abi }
{
    4
}

// The name has the number in it, so that what was made for another one does not link.
#[unsafe(no_mangle)]
pub extern "C" fn cuwelfra_abi_4() -> u64
    ensures { result ≡ abi }
{
    cuwelfra_abi()
}
