// The number of the interface, by which a program and an archive that do not belong together are told apart.
ghost use Rattle.std.specs.Prelude.{◌≡◌};

// The number of the interface that this archive has: the header's LUKHANDRO_INTERFACE.
#[unsafe(no_mangle)]
pub extern "C" fn lukhandro_interface() -> u32
    ensures { result ≡ 1 }
{
    capi::lukhandro_interface()
}

// The same, with the number in its name: header and binding refer to it, so a program of another number finds no such function and does not link.
#[unsafe(no_mangle)]
pub extern "C" fn lukhandro_interface_1() -> u32
    ensures { result ≡ 1 }
{
    capi::lukhandro_interface_1()
}
