// What the asking of routes 2 and 3 does between two calls: the place that a row asks next, and whether a variable waits to be worked out.
ghost use Rattle.std.specs.Prelude.{◌≡◌, ◌<◌, length};
ghost use Rattle.rows.specs.Asking.{waiting, next_place};

// The place that a row asks after place i, whose variable has the value x: the next one, but of ELEMENT the chosen candidate's after the index.
pub fn next_place(kind: u16, x: i32, i: usize, first: usize, last: usize) -> usize
    requires { (i < last) × (first < last) × (last < 131072) }
    ensures { result ≡ next_place kind x i first last }
{
    // Stays: a kind is a number of the lent tables (the C interface).
    if kind != 4 {
        return i + 1;
    }
    if i != first || x < 0 {
        return last;
    }
    (first + 1 + x as usize).min(last)
}

// There is work to do for variable v that is not done yet.
pub fn waits(v: usize, work: &[u16], flags: &[u8]) -> bool
    requires { (v < length work.now) × (v < length flags.now) }
    ensures { result ≡ waiting work.now flags.now v }
{
    work[v] != 0 && flags[v] != 1
}
