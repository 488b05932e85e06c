// How many of a row's places share their value, where few do: each value falls into a bucket, and only those that do not have theirs alone are compared.
ghost use Rattle.std.specs.Prelude.{◌≤◌, ◌<◌, [], ◌≡◌, leb, length};
ghost use Rattle.paper.specs.Formula as Formula;
ghost use Rattle.formulas.specs.Buckets.{bucket_of, Bucketed};

use crate::inputs::one_if;
use crate::shares::sharing_pairs;

// The bucket of a value.
fn bucket(x: i32) -> usize
    ensures { (result ≡ bucket_of x) × (result < 2048) }
{
    let bits = x.cast_unsigned() as usize;
    bits * 2654435769 / 2097152 % 2048
}

// Counts the values in each bucket: how many were not the first in theirs.
fn count_buckets(held: &[i32], counts: &mut [u16]) -> usize
    requires held_len_bound { length held.now ≤ 256 }
    requires bucketed { Bucketed [] counts.old }
    ensures { (result ≤ length held.now) × Bucketed held.now counts.new }
{
    let mut later = 0;
    for &x in held {
        let k = bucket(x);
        later += one_if(counts[k] != 0);
        counts[k] += 1;
    }
    later
}

// How many of these places hold z.
fn holding(z: i32, held: &[i32]) -> u32
    requires { length held.now ≤ 256 }
    ensures { result ≡ Formula.places z held.now }
{
    // Stays: the machine code of `filter` and `count` branches at each value and takes one at a time, where this takes several.
    let mut n = 0;
    for &x in held {
        if x == z {
            n += 1;
        }
    }
    n
}

// Whether two or more of these places hold z. With fewer than two values in its bucket none of them has to be looked at.
fn held_twice(z: i32, held: &[i32], counts: &[u16]) -> bool
    requires held_len_bound { length held.now ≤ 256 }
    requires bucketed { Bucketed held.now counts.now }
    ensures { result ≡ leb 2 (Formula.places z held.now) }
{
    2 <= counts[bucket(z)] && 2 <= holding(z, held)
}

// How many of these places hold a value that another of them also holds, by the buckets.
fn sharing_buckets(held: &[i32], counts: &[u16]) -> usize
    requires held_len_bound { length held.now ≤ 256 }
    requires bucketed { Bucketed held.now counts.now }
    ensures { result ≡ Formula.sharing held.now }
{
    let mut n = 0;
    for &x in held {
        n += one_if(held_twice(x, held, counts));
    }
    n
}

// How many of these places hold a value that another of them also holds. Where there are few places, or many values that are not alone, each two are compared.
pub fn sharing_places(held: &[i32]) -> usize
    requires { length held.now ≤ 256 }
    ensures { result ≡ Formula.sharing held.now }
{
    if held.len() < 48 {
        return sharing_pairs(held);
    }
    // Stays: rows of a fixed length, since no call allocates.
    let mut counts = [0u16; 2048];
    let later = count_buckets(held, &mut counts);
    if held.len() < 5 * later {
        return sharing_pairs(held);
    }
    sharing_buckets(held, &counts)
}
