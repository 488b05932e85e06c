// What a move touched put back.
ghost use Rattle.std.specs.Prelude.{◌≡◌, eqb};
ghost use Rattle.paper.specs.Lists.{nat, size};
ghost use Rattle.probes.specs.Rest.{AtRest, Astray};

use integers::wide;

// Gives every listed variable its stored value back, and takes its flag, its mark and its work; answers how many of the first n flags were 1.
// Stays: rows that are written are parameters of their own, here and below: a struct of them would need a clause for each, that it is still the caller's.
pub fn put_back(
    n: usize,
    count: usize,
    touched: &[u16],
    stored: &[i32],
    trial: &mut [i32],
    flags: &mut [u8],
    marks: &mut [u8],
    work: &mut [u16],
) -> usize
    requires { Astray n stored.now trial.old flags.old marks.old work.old touched.now 0 count }
    ensures rest { AtRest n stored.now trial.new flags.new marks.new work.new }
    ensures counted { result ≡ size (λ v. eqb (nat flags.old v) 1) n }
{
    let mut evaluated = 0;
    for &u in &touched[..count] {
        let v = wide(u);
        evaluated += usize::from(flags[v] == 1);
        trial[v] = stored[v];
        flags[v] = 0;
        marks[v] = 0;
        work[v] = 0;
    }
    evaluated
}
