// A table entry as an index, and the number of moves kept.
#![tactic(auto)]

pub mod naturals;

ghost use Rattle.std.specs.Prelude.{◌≡◌, ◌<◌};

// A table entry as an index.
// Stays: `usize::from` alone is no plainer, since it does not say that an entry is below 65536, which the callers' sums need.
pub fn wide(x: u16) -> usize
    ensures { (result ≡ x) × (result < 65536) }
{
    usize::from(x)
}
