// Moves of a file from one version to the other, across the C boundary.
ghost use Rattle.std.specs.Prelude.{◌≡◌};
ghost use Rattle.paper.specs.File as File;
ghost use Rattle.capi.specs.Outcomes.{moved_out};

use capi::MoveOutcome;

// `capi::lukhandro_to_version_2` for C.
#[unsafe(no_mangle)]
pub extern "C" fn lukhandro_to_version_2(bytes: &[u8], file: &mut [u8]) -> MoveOutcome
    ensures { (result, file.new) ≡ moved_out (File.convert File.version1 File.version2 bytes.now file.old) }
{
    capi::lukhandro_to_version_2(bytes, file)
}

// `capi::lukhandro_to_version_1` for C.
#[unsafe(no_mangle)]
pub extern "C" fn lukhandro_to_version_1(bytes: &[u8], file: &mut [u8]) -> MoveOutcome
    ensures { (result, file.new) ≡ moved_out (File.convert File.version2 File.version1 bytes.now file.old) }
{
    capi::lukhandro_to_version_1(bytes, file)
}
