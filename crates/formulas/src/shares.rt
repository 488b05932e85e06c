// How many of a row's places share their value. Each two are compared once, when the earlier has its turn: by then a place is marked if
// an earlier one holds its value. Four places have their turn at a time.
ghost use Rattle.std.specs.Prelude.{◌+◌, ◌≤◌, ◌≡◌, cond, ◌||◌, length, map, drop};
ghost use Rattle.integers.specs.Integers.{eq_z};
ghost use Rattle.paper.specs.Lists.{any};
ghost use Rattle.paper.specs.Formula as Formula;
ghost use Rattle.formulas.specs.Marks.{all_bits, PlacesMarked, TurnsTaken};

use crate::inputs::one_if;

// The mark of a place, set if it holds the value. A comparison of several places at a time leaves all bits of each that is equal.
fn marked(holds: bool, mark: u32) -> u32
    ensures { result ≡ cond holds all_bits mark }
{
    if holds { u32::MAX } else { mark }
}

// Marks the places from `first` on that hold one of N values, and of these each that they hold. Each place and each mark is read once, and no place stops
// the loop, so that it takes several at a time.
fn mark<const N: usize>(values: [i32; N], first: usize, held: &[i32], marks: &mut [u32]) -> [u32; N]
    requires { (first ≤ length held.now) × (length held.now ≤ length marks.old) }
    ensures marked { PlacesMarked (λ x. any (eq_z x) values.entry) held.now first (length held.now) marks.old marks.new }
    ensures found { result ≡ map (λ z. cond (any (λ x. eq_z x z) (drop first held.now)) all_bits 0) values.entry }
{
    let mut found = [0; N];
    for j in first..held.len() {
        let x = held[j];
        let mut same = false;
        for k in 0..N {
            let here = x == values[k];
            same |= here;
            found[k] = marked(here, found[k]);
        }
        marks[j] = marked(same, marks[j]);
    }
    found
}

// 1 for a place that holds z, if an earlier place, one of three others or a later place holds it too.
fn one_of_four(z: i32, earlier: bool, a: i32, b: i32, c: i32, later: bool) -> usize
    ensures { result ≡ cond (earlier || eq_z a z || eq_z b z || eq_z c z || later) 1 0 }
{
    one_if(earlier | (a == z) | (b == z) | (c == z) | later)
}

// The turn of the four places from i on, after n places that share their value: how many do then.
fn four_places(n: usize, i: usize, held: &[i32], marks: &mut [u32]) -> usize
    requires { (i + 4 ≤ length held.now) × (length held.now ≤ 256) × TurnsTaken held.now marks.old i n }
    ensures { TurnsTaken held.now marks.new (i + 4) result }
{
    // Stays: each of the four is compared with the three others, which as arrays are read by places that leave one out: no plainer.
    let a = held[i];
    let b = held[i + 1];
    let c = held[i + 2];
    let d = held[i + 3];
    let mark_a = marks[i] != 0;
    let mark_b = marks[i + 1] != 0;
    let mark_c = marks[i + 2] != 0;
    let mark_d = marks[i + 3] != 0;
    let [in_a, in_b, in_c, in_d] = mark([a, b, c, d], i + 4, held, marks);
    let one_a = one_of_four(a, mark_a, b, c, d, in_a != 0);
    let one_b = one_of_four(b, mark_b, a, c, d, in_b != 0);
    let one_c = one_of_four(c, mark_c, a, b, d, in_c != 0);
    let one_d = one_of_four(d, mark_d, a, b, c, in_d != 0);
    n + one_a + one_b + one_c + one_d
}

// The turn of the places that are left from `first` on, after `before` places that share their value: how many do then.
fn last_places(before: usize, first: usize, held: &[i32], marks: &mut [u32]) -> usize
    requires { (length held.now ≤ 256) × TurnsTaken held.now marks.old first before }
    ensures { result ≡ Formula.sharing held.now }
{
    let mut n = before;
    for i in first..held.len() {
        let earlier = marks[i] != 0;
        let [later] = mark([held[i]], i + 1, held, marks);
        n += one_if(earlier | (later != 0));
    }
    n
}

// How many of these places hold a value that another of them also holds.
pub fn sharing_pairs(held: &[i32]) -> usize
    requires { length held.now ≤ 256 }
    ensures { result ≡ Formula.sharing held.now }
{
    // Stays: rows of a fixed length, since no call allocates.
    let mut marks = [0u32; 256];
    let mut n = 0;
    let mut i = 0;
    // Stays: by `step_by(4)` the place where the last places begin is reckoned apart from the loop, which is no plainer.
    while i + 4 <= held.len() {
        n = four_places(n, i, held, &mut marks);
        i += 4;
    }
    last_places(n, i, held, &mut marks)
}
