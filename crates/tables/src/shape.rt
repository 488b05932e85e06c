// Check 3: variables, counts and parts.
ghost use Rattle.std.specs.Prelude.{◌&&◌, ◌≡◌, ◌≤◌, ltb, length, take};
ghost use Rattle.paper.specs.Lists.{all, greatest, total, nat, first_fail, all_below};
ghost use Rattle.paper.specs.Checks.{arity, shape_good};
ghost use Rattle.integers.specs.Below.{if_below};
ghost use Rattle.tables.specs.Lent.{lent_tables};
ghost use Rattle.tables.specs.Rows.{ShapesLong, parts_good};

use crate::lent::Tables;
use integers::wide;

// A row of this kind may have so many inputs.
fn arity_good(kind: u16, count: u16) -> bool
    ensures { result ≡ arity kind count }
{
    match kind {
        4 => (2 <= count) & (count <= 256),
        7 => count == 2,
        8 | 9 => count == 3,
        _ => (1 <= count) & (count <= 256),
    }
}

// The first variable of a list that is not below n.
pub fn first_unknown(n: usize, count: usize, vars: &[u16]) -> Option<usize>
    requires { count ≤ length vars.now }
    ensures { result ≡ if_below count (first_fail (λ i. ltb (nat vars.now i) n) count) }
{
    vars[..count].iter().position(|&v| n <= wide(v))
}

// The greatest of these variables, 0 if there are none. No variable stops the loop, so that it takes several at a time.
fn greatest_of(vars: &[u16]) -> u16
    ensures { result ≡ greatest vars.now }
{
    vars.iter().fold(0, |best, &v| best.max(v))
}

// The greatest of the first variables of a list is below n.
fn all_known(n: usize, count: usize, vars: &[u16]) -> bool
    requires { count ≤ length vars.now }
    ensures { result ≡ ltb (greatest (take count vars.now)) n }
{
    wide(greatest_of(&vars[..count])) < n
}

// All m rows have as many inputs as suit their kinds. No row stops the loop.
fn counts_good(tables: &Tables) -> bool
    requires { (tables.now.m ≤ length tables.now.kinds.now) × (tables.now.m ≤ length tables.now.counts.now) }
    ensures { result ≡ all_below (λ row. arity (nat tables.now.kinds.now row) (nat tables.now.counts.now row)) tables.now.m }
{
    let mut good = true;
    // Stays: two columns at one row; a `zip` of two cut slices is no plainer.
    for row in 0..tables.m {
        good = good & arity_good(tables.kinds[row], tables.counts[row]);
    }
    good
}

// Each of m rows has its part where those before it end, and the last one's ends within so many entries. No row stops the loop.
pub fn parts_good(tables: &Tables, entries: usize) -> bool
    requires { (tables.now.m ≤ length tables.now.firsts.now) × (tables.now.m ≤ length tables.now.counts.now) }
    ensures { result ≡ parts_good tables.now.m entries tables.now.firsts.now tables.now.counts.now }
{
    let mut good = true;
    let mut before: u32 = 0;
    for row in 0..tables.m {
        let first = u32::from(tables.firsts[row]);
        good = good & (first == before);
        before = first + u32::from(tables.counts[row]);
    }
    good & ((before as usize) <= entries)
}

// A row may make this variable and have so many inputs.
fn row_good(n: usize, kind: u16, made: u16, count: u16) -> bool
    ensures { result ≡ (ltb made n && arity kind count) }
{
    (wide(made) < n) & arity_good(kind, count)
}

// All variables of a part are below n.
fn inputs_good(n: usize, part: &[u16]) -> bool
    ensures { result ≡ all (λ v. ltb v n) part.now }
{
    part.iter().all(|&v| wide(v) < n)
}

// The first row that has a variable not below n, a count that does not suit its kind, or a part that does not begin where those before it end
// or that ends after e, row by row.
fn bad_shape_by_row(tables: &Tables) -> Option<usize>
    requires { ShapesLong (lent_tables tables.now) }
    ensures { result ≡ if_below tables.now.m (first_fail (shape_good (lent_tables tables.now)) tables.now.m) }
{
    let mut before = 0;
    for row in 0..tables.m {
        let first = wide(tables.firsts[row]);
        let end = first + wide(tables.counts[row]);
        let placed = row_good(
            tables.n,
            tables.kinds[row],
            tables.makes[row],
            tables.counts[row],
        ) & (first == before)
            & (end <= tables.e);
        if !placed {
            return Some(row);
        }
        if !inputs_good(tables.n, &tables.vars[first..end]) {
            return Some(row);
        }
        before = end;
    }
    None
}

// The same. All rows and all entries are looked at once, in loops that nothing stops; only where these do not show every row to be good are they
// looked at row by row.
pub fn first_bad_shape(tables: &Tables) -> Option<usize>
    requires { ShapesLong (lent_tables tables.now) }
    ensures { result ≡ if_below tables.now.m (first_fail (shape_good (lent_tables tables.now)) tables.now.m) }
{
    let rows_known = all_known(tables.n, tables.m, tables.makes) & counts_good(tables);
    let inputs_known = all_known(tables.n, tables.e, tables.vars) & parts_good(tables, tables.e);
    if rows_known & inputs_known {
        return None;
    }
    bad_shape_by_row(tables)
}

// The sum of the counts of m rows.
pub fn total_of(tables: &Tables) -> usize
    requires { (tables.now.m ≤ length tables.now.counts.now) × (tables.now.m ≤ 4096) }
    ensures { result ≡ total (take tables.now.m tables.now.counts.now) }
{
    let mut sum = 0;
    for &count in &tables.counts[..tables.m] {
        sum += wide(count);
    }
    sum
}
