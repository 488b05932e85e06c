// The least variable that fails, once the choices have been followed.
ghost use Rattle.std.specs.Prelude.{◌&&◌, ◌≡◌, ◌≤◌, eqb, pos, length, get_or};
ghost use Rattle.integers.specs.Below.{if_below};
ghost use Rattle.integers.specs.Integers.{eq_z};
ghost use Rattle.paper.specs.Lists.{nat, first_fail};

// The least variable whose value does not stand or is not the stored one, if there is one.
pub fn first_other(
    n: usize,
    stored: &[i32],
    values: &[i32; 4096],
    states: &[u8; 4096],
) -> Option<usize>
    requires { (n ≤ length stored.now) × (n ≤ 4096) }
    ensures { result ≡ if_below n (first_fail (λ v. eqb (nat states.now v) 2 && eq_z (get_or stored.now v (pos 0)) (get_or values.now v (pos 0))) n) }
{
    (0..n).find(|&v| (states[v] != 2) | (stored[v] != values[v]))
}
