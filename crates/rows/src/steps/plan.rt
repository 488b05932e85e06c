// The row of work of routes 2 and 3.
ghost use Rattle.std.specs.Prelude.{cond, ◌≡◌, ◌≤◌, eqb, length};
ghost use Rattle.paper.specs.Lists.{nat, over};

// The maker of a variable that is marked, else 0.
fn if_marked(mark: u8, maker: u16) -> u16
    ensures { result ≡ cond (eqb mark 1) maker 0 }
{
    if mark == 1 { maker } else { 0 }
}

// Writes the maker of each variable that is marked, and else 0.
pub fn plan_work(n: usize, by: &[u16], marks: &[u8], work: &mut [u16])
    requires { (n ≤ length by.now) × (n ≤ length marks.now) × (n ≤ length work.old) }
    ensures { work.new ≡ over n (λ v. cond (eqb (nat marks.now v) 1) (nat by.now v) 0) work.old }
{
    // Stays: of three rows, `zip` twice gives pairs in pairs, which is no plainer.
    for v in 0..n {
        work[v] = if_marked(marks[v], by[v]);
    }
}
