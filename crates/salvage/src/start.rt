// Start values: those that are whole and that build takes are kept, and the others become 0.
ghost use Rattle.std.specs.Prelude.{cond, ◌≡◌, ◌≤◌, pos, length, get_or};
ghost use Rattle.paper.specs.Lists.{over};
ghost use Rattle.salvage.specs.Saving.{start_taken};

use damage::admissions::start_good;
use fields::places::{Version, rows_at};

// Says which start values are kept, and puts 0 in the place of the others. `by` is the row of makers.
pub(crate) fn keep_starts(size: usize, n: usize, by: &[u16], starts: &mut [i32], taken: &mut [bool])
    requires { (n ≤ 4096) × (n ≤ length by.now) × (n ≤ length starts.old) × (n ≤ length taken.old) }
    ensures say { taken.new ≡ over n (start_taken size by.now starts.old) taken.old }
    ensures put { starts.new ≡ over n (λ v. cond (start_taken size by.now starts.old v) (get_or starts.old v (pos 0)) (pos 0)) starts.old }
{
    // Stays: v picks from three rows, and the place too.
    for v in 0..n {
        let kept = start_good(
            rows_at(Version::One.head_length(), v + 1) <= size,
            by[v] != 0,
            starts[v],
        );
        taken[v] = kept;
        if !kept {
            starts[v] = 0;
        }
    }
}
