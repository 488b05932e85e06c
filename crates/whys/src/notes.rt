// What the calls store and return of reasons, over the lent tables: of each variable that a call has evaluated, and of each that a trial asks.
ghost use Rattle.std.specs.Prelude.{◌≤◌, true, ◌≡◌, ltb, length};
ghost use Rattle.paper.specs.Lists.{all, nat, over};
ghost use Rattle.paper.specs.Checks.{Sound};
ghost use Rattle.tables.specs.Lent.{lent_tables};
ghost use Rattle.tables.specs.Makers.{Makers};
ghost use Rattle.rows.specs.Changes.{values_of};
ghost use Rattle.whys.specs.Noted.{shown, current, noted_reason};

use crate::plain::{ask_plain, none_blank, note_plain};
use crate::reasoned::{ask_by, note_blanks};
use tables::lent::Tables;
use tables::makers;

// Stores the reason of every variable whose flag is 1 over the values, and 0 at search variables, as the makers say; every other keeps its reason. First as if none were
// blank, then of the blanks, whose rows alone are looked at.
pub fn note_reasons(tables: &Tables, by: &[u16], values: &[i32], flags: &[u8], reasons: &mut [u8])
    requires sound { Sound (lent_tables tables.now) }
    requires room { (tables.now.n ≤ length values.now) × (tables.now.n ≤ length flags.now) × (tables.now.n ≤ length reasons.old) }
    requires makers { Makers (lent_tables tables.now) by.now }
    ensures { reasons.new ≡ over tables.now.n (noted_reason (lent_tables tables.now) flags.now (values_of values.now) (nat reasons.old)) reasons.old }
{
    note_plain(tables.n, by, flags, reasons);
    note_blanks(tables, by, values, flags, reasons);
}

// Stores the reason of every variable over the values, as if every flag were 1.
pub fn first_reasons(tables: &Tables, values: &[i32], reasons: &mut [u8])
    requires sound { Sound (lent_tables tables.now) }
    requires room { (tables.now.n ≤ length values.now) × (tables.now.n ≤ length reasons.old) }
    ensures { reasons.new ≡ over tables.now.n (shown (lent_tables tables.now) (values_of values.now)) reasons.old }
{
    // Stays: rows of a fixed length, since no call allocates.
    let mut by = [0u16; 4096];
    makers(tables.n, tables.m, tables.makes, &mut by);
    let flags = [1u8; 4096];
    note_reasons(tables, &by, values, &flags, reasons);
}

// Copies out the reason of every asked variable, in asking order: over the values if its flag is 1, else the stored one. Rows are looked at only where one came out blank.
pub fn asked_reasons(
    tables: &Tables,
    by: &[u16],
    values: &[i32],
    flags: &[u8],
    stored: &[u8],
    asked: &[u16],
    results: &mut [u8],
)
    requires sound { Sound (lent_tables tables.now) }
    requires room { (tables.now.n ≤ length values.now) × (tables.now.n ≤ length flags.now) × (tables.now.n ≤ length stored.now) × (length asked.now ≤ length results.old) }
    requires known { all (λ v. ltb v tables.now.n) asked.now ≡ true }
    requires makers { Makers (lent_tables tables.now) by.now }
    ensures { results.new ≡ over (length asked.now) (λ i. current (lent_tables tables.now) flags.now (values_of values.now) (nat stored.now) (nat asked.now i)) results.old }
{
    if none_blank(tables.n, values, flags, asked) {
        ask_plain(tables.n, flags, stored, asked, results);
    } else {
        ask_by(tables, by, values, flags, stored, asked, results);
    }
}
