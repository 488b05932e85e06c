// The number of evaluations.
ghost use Rattle.std.specs.Prelude.{◌≡◌, ◌≤◌, eqb, length};
ghost use Rattle.paper.specs.Lists.{nat, size};

// How many of the first n flags are 1.
pub fn evaluations(n: usize, flags: &[u8]) -> usize
    requires { n ≤ length flags.now }
    ensures { result ≡ size (λ v. eqb (nat flags.now v) 1) n }
{
    // Stays: `filter` and `count` prove, but their machine code branches at each flag and takes one at a time, where this takes several.
    let mut count = 0;
    for &flag in &flags[..n] {
        if flag == 1 {
            count += 1;
        }
    }
    count
}
