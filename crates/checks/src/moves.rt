// Moves. What is checked of them: check 1 of a move, and checks 10 to 12 and 17 one by one and as a chain.
// Made variables are told from search variables by the row of makers. Check 13 is `tables::first_unknown` over the asked variables.
ghost use Rattle.std.specs.Prelude.{◌≡◌, ◌≤◌, ◌<◌, length, IfSome};
ghost use Rattle.integers.specs.Below.{if_below};
ghost use Rattle.paper.specs.Lists.{first_fail, all_below};
ghost use Rattle.paper.specs.Checks.{accepted, move_fits, movable, has_value, pair_within};
ghost use Rattle.tables.specs.Answers.{answer_of};
ghost use Rattle.tables.specs.Lent.{lent_bounds, lent_move};
ghost use Rattle.checks.specs.Allowed.{OfMakers};
ghost use Rattle.checks.specs.Moves.{pair_good, pair_checks};

use crate::bounds::within;
use crate::repeats::first_again;
use formulas::blanks::is_blank;
use integers::wide;
use tables::lent::{Bounds, Move};
use tables::{Refusal, none_fails};

// There are at most 64 pairs, and all of them are lent.
pub fn move_sizes(mv: &Move) -> bool
    ensures { result ≡ move_fits (lent_move mv.now) }
{
    (mv.pairs <= 64) & (mv.pairs <= mv.vars.len()) & (mv.pairs <= mv.values.len())
}

// The first pair that names a made variable, or one not below n.
pub fn first_unmovable(n: usize, by: &[u16], mv: &Move) -> Option<usize>
    requires { (n ≤ length by.now) × (mv.now.pairs ≤ length mv.now.vars.now) }
    ensures least { OfMakers n by.now (λ t. result ≡ if_below mv.now.pairs (first_fail (movable (lent_move mv.now) t) mv.now.pairs)) }
    ensures below { IfSome result (λ pair. pair < mv.now.pairs) }
{
    (0..mv.pairs).find(|&pair| {
        let v = wide(mv.vars[pair]);
        n <= v || by[v] != 0
    })
}

// The first pair whose new value is blank.
pub fn first_blank(mv: &Move) -> Option<usize>
    requires { mv.now.pairs ≤ length mv.now.values.now }
    ensures { result ≡ if_below mv.now.pairs (first_fail (has_value (lent_move mv.now)) mv.now.pairs) }
{
    mv.values[..mv.pairs]
        .iter()
        .position(|&value| is_blank(value))
}

// The first pair whose new value lies outside its variable's bounds.
pub fn first_outside(mv: &Move, bounds: &Bounds) -> Option<usize>
    requires { (mv.now.pairs ≤ length mv.now.vars.now) × (mv.now.pairs ≤ length mv.now.values.now) }
    ensures { result ≡ if_below mv.now.pairs (first_fail (pair_within (lent_move mv.now) (lent_bounds bounds.now)) mv.now.pairs) }
{
    (0..mv.pairs).find(|&pair| !within(bounds, wide(mv.vars[pair]), mv.values[pair]))
}

// Whether checks 10, 12 and 17 pass, of all pairs in one pass: for a caller that tells no number and no place.
pub fn all_pairs_good(n: usize, by: &[u16], bounds: &Bounds, mv: &Move) -> bool
    requires { (n ≤ length by.now) × (mv.now.pairs ≤ length mv.now.vars.now) × (mv.now.pairs ≤ length mv.now.values.now) }
    ensures { result ≡ all_below (pair_good n by.now (lent_bounds bounds.now) (lent_move mv.now)) mv.now.pairs }
{
    // by value, so that where the rows lie is read once and not at each pair
    let bounds = *bounds;
    (0..mv.pairs).all(|pair| {
        let v = wide(mv.vars[pair]);
        let value = mv.values[pair];
        v < n && by[v] == 0 && !is_blank(value) && within(&bounds, v, value)
    })
}

// Checks 10 to 12 and 17, each over all pairs before the next.
pub fn move_checks(n: usize, by: &[u16], bounds: &Bounds, mv: &Move) -> Result<(), Refusal>
    requires { (n ≤ length by.now) × (mv.now.pairs ≤ 64) × (mv.now.pairs ≤ length mv.now.vars.now) × (mv.now.pairs ≤ length mv.now.values.now) }
    ensures { OfMakers n by.now (λ t. result ≡ answer_of tt (pair_checks (lent_move mv.now) (lent_bounds bounds.now) t accepted)) }
{
    none_fails(10, first_unmovable(n, by, mv))?;
    none_fails(11, first_again(mv.pairs, mv.vars))?;
    none_fails(12, first_blank(mv))?;
    none_fails(17, first_outside(mv, bounds))
}
