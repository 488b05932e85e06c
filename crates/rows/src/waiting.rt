// The least variable that following the choices left undetermined.
ghost use Rattle.std.specs.Prelude.{◌≡◌, ◌≤◌, eqb};
ghost use Rattle.integers.specs.Below.{if_below};
ghost use Rattle.paper.specs.Lists.{nat, first_fail};

// The least of the first n variables whose value does not stand, if there is one.
pub fn first_waiting(n: usize, states: &[u8; 4096]) -> Option<usize>
    requires { n ≤ 4096 }
    ensures { result ≡ if_below n (first_fail (λ v. eqb (nat states.now v) 2) n) }
{
    states[..n].iter().position(|&state| state != 2)
}
