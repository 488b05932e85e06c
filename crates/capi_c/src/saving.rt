// Salvage of a damaged file across the C boundary.
ghost use Rattle.std.specs.Prelude.{◌≡◌};
ghost use Rattle.salvage.specs.Salvage.{lends_to_salvage};
ghost use Rattle.salvage.specs.Salvage as Salvage;
ghost use Rattle.capi.specs.Outcomes.{salvaged_out};

use capi::SalvageOutcome;

// `capi::lukhandro_salvage` for C.
#[unsafe(no_mangle)]
pub extern "C" fn lukhandro_salvage(
    bytes: &[u8],
    file: &mut [u8],
    list: &mut [u16],
) -> SalvageOutcome
    ensures { (result, (file.new, list.new)) ≡ salvaged_out (Salvage.salvage (lends_to_salvage bytes.now file.old list.old)) }
{
    capi::lukhandro_salvage(bytes, file, list)
}
