// What differs between the trial row and the stored one.
ghost use Rattle.std.specs.Prelude.{◌≡◌, ◌<◌, length};
ghost use Rattle.paper.specs.Net.{differs};
ghost use Rattle.rows.specs.Changes.{values_of};

// Variable v has another value in the trial row than in the stored one.
pub fn moved(v: usize, stored: &[i32], trial: &[i32]) -> bool
    requires { (v < length stored.now) × (v < length trial.now) }
    ensures { result ≡ differs (values_of trial.now) (values_of stored.now) v }
{
    trial[v] != stored[v]
}
