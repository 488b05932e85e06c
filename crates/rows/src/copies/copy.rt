// Values copied.
ghost use Rattle.std.specs.Prelude.{true, ◌≡◌, ◌≤◌, ltb, pos, length, get_or};
ghost use Rattle.paper.specs.Lists.{all, nat, over};

use integers::wide;

// Copies the first n values.
pub fn copy_values(n: usize, from: &[i32], to: &mut [i32])
    requires { (n ≤ length from.now) × (n ≤ length to.old) }
    ensures { to.new ≡ over n (λ v. get_or from.now v (pos 0)) to.old }
{
    to[..n].copy_from_slice(&from[..n]);
}

// Copies the values of the asked variables, in asking order.
pub fn copy_asked(asked: &[u16], values: &[i32], results: &mut [i32])
    requires known { all (λ v. ltb v (length values.now)) asked.now ≡ true }
    requires room { length asked.now ≤ length results.old }
    ensures { results.new ≡ over (length asked.now) (λ i. get_or values.now (nat asked.now i) (pos 0)) results.old }
{
    for (i, &v) in asked.iter().enumerate() {
        results[i] = values[wide(v)];
    }
}
