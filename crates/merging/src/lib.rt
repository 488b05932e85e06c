// The figures of two batches merged: totals and tallies of both.
#![tactic(auto)]

ghost use Rattle.std.specs.Prelude.{true, ◌&&◌, ◌≡◌, ◌+◌, ◌≤◌, ◌+ℤ◌, length};
ghost use Rattle.paper.specs.Lists.{nat, over};
ghost use Rattle.figures.specs.Adding.{plus};
ghost use Rattle.merging.specs.Merge.{counts_fit, half_fits, totals_fit, tallies_fit, merge_fits, merge as merged};

use figures::{Totals, greatest_of, least_of};
use tables::{Refusal, refused};

// Whether two counts together fit 32 bits.
fn counts_fit(a: u32, b: u32) -> bool
    ensures { result ≡ counts_fit a b }
{
    a.checked_add(b).is_some()
}

// Whether two sums of that size fit 64 bits.
fn half_fits(sum: i64) -> bool
    ensures { result ≡ half_fits sum }
{
    (-4611686018427387903 <= sum) & (sum <= 4611686018427387903)
}

// Whether the figures of two batches can be added.
fn totals_fit(first: Totals, second: Totals) -> bool
    ensures { result ≡ totals_fit first second }
{
    counts_fit(first.blank, second.blank)
        & half_fits(first.sum)
        & half_fits(second.sum)
        & counts_fit(first.first, second.first)
        & counts_fit(first.second, second.second)
        & counts_fit(first.third, second.third)
}

// Whether the tallies of two batches can be added.
fn tallies_fit(first: &[u32], second: &[u32]) -> bool
    requires { (22 ≤ length first.now) × (22 ≤ length second.now) }
    ensures { result ≡ tallies_fit first.now second.now }
{
    (0..22).all(|k| counts_fit(first[k], second[k]))
}

// The sum of two sums that are at most half as large as fits.
fn add_sums(a: i64, b: i64) -> i64
    requires { (half_fits a && half_fits b) ≡ true }
    ensures { result ≡ a +ℤ b }
{
    a + b
}

// The figures of both batches.
fn add_totals(first: Totals, second: Totals) -> Totals
    requires { totals_fit first second ≡ true }
    ensures { result ≡ plus first second }
{
    Totals {
        blank: first.blank + second.blank,
        least: least_of(first.least, second.least),
        greatest: greatest_of(first.greatest, second.greatest),
        sum: add_sums(first.sum, second.sum),
        first: first.first + second.first,
        second: first.second + second.second,
        third: first.third + second.third,
    }
}

// Writes the tallies of both batches.
// Stays: k picks from three rows.
fn add_tallies(first: &[u32], second: &[u32], by_number: &mut [u32])
    requires { (22 ≤ length first.now) × (22 ≤ length second.now) × (22 ≤ length by_number.old) × (tallies_fit first.now second.now ≡ true) }
    ensures { by_number.new ≡ over 22 (λ k. nat first.now k + nat second.now k) by_number.old }
{
    for k in 0..22 {
        by_number[k] = first[k] + second[k];
    }
}

// Whether the figures and tallies of two batches can be merged.
fn merge_fits(
    first: Totals,
    second: Totals,
    first_by_number: &[u32],
    second_by_number: &[u32],
    by_number: &[u32],
) -> bool
    ensures { result ≡ merge_fits first second first_by_number.now second_by_number.now by_number.now }
{
    let fit = totals_fit(first, second)
        & (22 <= first_by_number.len())
        & (22 <= second_by_number.len())
        & (22 <= by_number.len());
    if !fit {
        return false;
    }
    tallies_fit(first_by_number, second_by_number)
}

// The figures of two batches together: those of their moves as one batch. Refused with 1, and nothing written, for a row of fewer than 22 places, counts that
// together leave 32 bits, and a sum that is more than half as large as 64 bits hold.
pub fn merge(
    first: Totals,
    second: Totals,
    first_by_number: &[u32],
    second_by_number: &[u32],
    by_number: &mut [u32],
) -> Result<Totals, Refusal>
    ensures { (result, by_number.new) ≡ merged first second first_by_number.now second_by_number.now by_number.old }
{
    if !merge_fits(first, second, first_by_number, second_by_number, by_number) {
        return Err(refused(1, 0));
    }
    add_tallies(first_by_number, second_by_number, by_number);
    Ok(add_totals(first, second))
}
