// Reasons where nothing came out blank: no row has to be looked at.
ghost use Rattle.std.specs.Prelude.{◌≤◌, true, cond, ◌≡◌, ltb, length};
ghost use Rattle.paper.specs.Lists.{all, nat, all_below, over};
ghost use Rattle.whys.specs.Plain.{not_blank, plain_now, plain_noted};

use formulas::blanks::is_blank;
use integers::wide;

// Whether no asked variable whose flag is 1 is blank.
pub fn none_blank(n: usize, values: &[i32], flags: &[u8], asked: &[u16]) -> bool
    requires n_in_bounds { (n ≤ length values.now) × (n ≤ length flags.now) }
    requires asked_value { all (λ v. ltb v n) asked.now ≡ true }
    ensures { result ≡ all_below (λ i. not_blank flags.now values.now (nat asked.now i)) (length asked.now) }
{
    !asked
        .iter()
        .any(|&v| (flags[wide(v)] == 1) & is_blank(values[wide(v)]))
}

// Copies out the reasons, in asking order: 0 where the flag is 1, else the stored one.
pub fn ask_plain(n: usize, flags: &[u8], stored: &[u8], asked: &[u16], out: &mut [u8])
    requires n_in_bounds { (n ≤ length flags.now) × (n ≤ length stored.now) × (length asked.now ≤ length out.old) }
    requires asked_value { all (λ v. ltb v n) asked.now ≡ true }
    ensures { out.new ≡ over (length asked.now) (λ i. plain_now flags.now (nat stored.now) (nat asked.now i)) out.old }
{
    for (i, &v) in asked.iter().enumerate() {
        let v = wide(v);
        out[i] = if flags[v] == 1 { 0 } else { stored[v] };
    }
}

// 0 if it is to be cleared, else the reason as it stands.
fn cleared(clear: bool, stored: u8) -> u8
    ensures { result ≡ cond clear 0 stored }
{
    if clear { 0 } else { stored }
}

// Stores the reasons of the first n variables: 0 where no row makes it or its flag is 1, else it stays. No turn branches, so that the compiler takes several
// variables at a time.
pub fn note_plain(n: usize, by: &[u16], flags: &[u8], reasons: &mut [u8])
    requires { (n ≤ length by.now) × (n ≤ length flags.now) × (n ≤ length reasons.old) }
    ensures { reasons.new ≡ over n (λ v. plain_noted by.now flags.now (nat reasons.old) v) reasons.old }
{
    for v in 0..n {
        reasons[v] = cleared((by[v] == 0) | (flags[v] == 1), reasons[v]);
    }
}
