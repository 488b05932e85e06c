// A model file of one version as one of the other: `to_version_2` and `to_version_1`. Whatever a call is lent, it answers and leaves what the paper
// says; a refused call changes nothing. It answers the length of the new file, which stands in front of the buffer.
mod convert;

ghost use Rattle.std.specs.Prelude.{◌≡◌};
ghost use Rattle.files.specs.MoveAnswers.{has_converted};
ghost use Rattle.paper.specs.File as File;

use crate::conversions::convert::convert;
use fields::places::Version;
use tables::Refusal;

// Stores a file of version 1 as one of version 2, with all bounds full.
pub fn to_version_2(bytes: &[u8], file: &mut [u8]) -> Result<usize, Refusal>
    ensures { has_converted result file.new ≡ File.convert File.version1 File.version2 bytes.now file.old }
{
    convert(Version::One, Version::Two, bytes, file)
}

// Stores a file of version 2 as one of version 1, if it has only full bounds.
pub fn to_version_1(bytes: &[u8], file: &mut [u8]) -> Result<usize, Refusal>
    ensures { has_converted result file.new ≡ File.convert File.version2 File.version1 bytes.now file.old }
{
    convert(Version::Two, Version::One, bytes, file)
}
