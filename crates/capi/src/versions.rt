// Moves of a file from one version to the other, across the C boundary.
ghost use Rattle.std.specs.Prelude.{◌≡◌};
ghost use Rattle.paper.specs.File as File;
ghost use Rattle.capi.specs.Outcomes.{move_in_numbers, moved_out};

use crate::MoveOutcome;
use files::conversions::{to_version_1, to_version_2};
use tables::Refusal;

// What a move answers, as three numbers.
impl From<Result<usize, Refusal>> for MoveOutcome {
    ghost from_gives = { λ told r. r ≡ move_in_numbers told };

    fn from(told: Result<usize, Refusal>) -> MoveOutcome {
        match told {
            Ok(length) => MoveOutcome {
                number: 0,
                place: 0,
                length,
            },
            Err(refusal) => MoveOutcome {
                number: refusal.number,
                place: refusal.place,
                length: 0,
            },
        }
    }
}

// `files::conversions::to_version_2` for C.
pub fn lukhandro_to_version_2(bytes: &[u8], file: &mut [u8]) -> MoveOutcome
    ensures { (result, file.new) ≡ moved_out (File.convert File.version1 File.version2 bytes.now file.old) }
{
    MoveOutcome::from(to_version_2(bytes, file))
}

// `files::conversions::to_version_1` for C.
pub fn lukhandro_to_version_1(bytes: &[u8], file: &mut [u8]) -> MoveOutcome
    ensures { (result, file.new) ≡ moved_out (File.convert File.version2 File.version1 bytes.now file.old) }
{
    MoveOutcome::from(to_version_1(bytes, file))
}
