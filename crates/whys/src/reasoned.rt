// The reasons of variables over a row of values, where the row of makers says which row makes each.
ghost use Rattle.std.specs.Prelude.{◌≤◌, ◌<◌, true, ◌≡◌, ltb, length};
ghost use Rattle.paper.specs.Lists.{all, nat, over};
ghost use Rattle.whys.specs.Given.{row_reads, reason_in, reads, all_read, reason_now, blank_now};
ghost use Rattle.whys.specs.Rows.{PartNoted};

use crate::reason;
use formulas::blanks::{blanks_among, is_blank};
use formulas::inputs::Inputs;
use integers::wide;
use tables::lent::Tables;

// The reason of a value of row r.
fn row_reason(tables: &Tables, values: &[i32], r: usize, value: i32) -> u8
    requires { row_reads tables.now values.now r }
    ensures { result ≡ reason_in tables.now values.now r value }
{
    let first = wide(tables.firsts[r]);
    let end = first + wide(tables.counts[r]);
    let row = Inputs {
        vars: &tables.vars[first..end],
        values,
    };
    reason(tables.kinds[r], row, value)
}

// The reason of variable v if its flag is 1, else the one given.
fn reason_now(tables: &Tables, by: &[u16], values: &[i32], flags: &[u8], v: usize, stored: u8) -> u8
    requires reads { reads tables.now values.now by.now v }
    requires v_in_bounds { v < length flags.now }
    ensures { result ≡ reason_now tables.now values.now by.now flags.now stored v }
{
    // Stays: a flag is a byte of the lent rows (the C interface).
    if flags[v] != 1 {
        return stored;
    }
    let maker = wide(by[v]);
    if maker == 0 {
        return 0;
    }
    row_reason(tables, values, maker - 1, values[v])
}

// The reason of variable v if its flag is 1 and its value blank, else the one given.
fn reason_of_blank(
    tables: &Tables,
    by: &[u16],
    values: &[i32],
    flags: &[u8],
    v: usize,
    stored: u8,
) -> u8
    requires reads { reads tables.now values.now by.now v }
    requires v_in_bounds { v < length flags.now }
    ensures { result ≡ blank_now tables.now values.now by.now flags.now stored v }
{
    if (flags[v] == 1) & is_blank(values[v]) {
        return reason_now(tables, by, values, flags, v, stored);
    }
    stored
}

// Stores the reasons of the blanks whose flag is 1 among the variables from `first` to before `end`.
fn note_part(
    tables: &Tables,
    by: &[u16],
    values: &[i32],
    flags: &[u8],
    first: usize,
    end: usize,
    reasons: &mut [u8],
)
    requires all_read { all_read tables.now values.now by.now end }
    requires first_le_end { (first ≤ end) × (end ≤ length flags.now) × (end ≤ length reasons.old) }
    ensures { PartNoted (blank_now tables.now values.now by.now flags.now) first end reasons.old reasons.new }
{
    for v in first..end {
        reasons[v] = reason_of_blank(tables, by, values, flags, v, reasons[v]);
    }
}

// Stores the reasons of the blanks whose flag is 1. Where none of 64 values is blank they are passed at once.
pub fn note_blanks(tables: &Tables, by: &[u16], values: &[i32], flags: &[u8], reasons: &mut [u8])
    requires all_read { all_read tables.now values.now by.now tables.now.n }
    requires n_bound { (tables.now.n ≤ 4096) × (tables.now.n ≤ length values.now) × (tables.now.n ≤ length flags.now) × (tables.now.n ≤ length reasons.old) }
    ensures { reasons.new ≡ over tables.now.n (λ v. blank_now tables.now values.now by.now flags.now (nat reasons.old v) v) reasons.old }
{
    let mut v = 0;
    // Stays: by `chunks(64).enumerate()` the first variable and the end of a part are reckoned from its number, which is no plainer.
    while v < tables.n {
        let end = (v + 64).min(tables.n);
        if blanks_among(end - v, &values[v..end]) != 0 {
            note_part(tables, by, values, flags, v, end, reasons);
        }
        v = end;
    }
}

// Copies out the reasons of the asked variables, in asking order.
pub fn ask_by(
    tables: &Tables,
    by: &[u16],
    values: &[i32],
    flags: &[u8],
    stored: &[u8],
    asked: &[u16],
    out: &mut [u8],
)
    requires all_read { all_read tables.now values.now by.now tables.now.n }
    requires n_in_bounds { (tables.now.n ≤ length flags.now) × (tables.now.n ≤ length stored.now) × (length asked.now ≤ length out.old) }
    requires asked_value { all (λ v. ltb v tables.now.n) asked.now ≡ true }
    ensures { out.new ≡ over (length asked.now) (λ i. reason_now tables.now values.now by.now flags.now (nat stored.now (nat asked.now i)) (nat asked.now i)) out.old }
{
    for (i, &v) in asked.iter().enumerate() {
        let v = wide(v);
        out[i] = reason_now(tables, by, values, flags, v, stored[v]);
    }
}
