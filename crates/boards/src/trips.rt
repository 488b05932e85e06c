// How many departures there are, by the engine: of one window, and of all.
ghost use Rattle.std.specs.Prelude.{[], ◌∷◌, ◌≡◌, ◌≤◌, min, pos, length};
ghost use Rattle.paper.specs.Formula.{strict};
ghost use Rattle.times.specs.Windows.{times_below, NumbersGood};
ghost use Rattle.times.specs.Lent.{lent_windows};
ghost use Rattle.boards.specs.Counting.{counted_on};

use build::building::build_new;
use formulas::blanks::BLANK;
use tables::lent::Tables;
use times::Windows;

// DEPARTURES of a window, the one row of a model of it: variables 0 to 2 are its numbers, and row 0 makes variable 3. Build refuses a blank number and leaves the row as it
// was: then there is no value.
fn departures_of(start: i32, end: i32, headway: i32) -> i32
    ensures { result ≡ strict 8 (pos 0) [] (start ∷ end ∷ headway ∷ []) }
{
    let tables = Tables {
        n: 4,
        m: 1,
        e: 3,
        kinds: &[8],
        makes: &[3],
        params: &[0],
        firsts: &[0],
        counts: &[3],
        vars: &[0, 1, 2],
        coefs: &[1, 1, 1],
    };
    // Stays: rows of a fixed length, since no call allocates.
    let mut stored = [BLANK; 4];
    build_new(
        &tables,
        &[start, end, headway, 0],
        &mut [0; 4],
        &mut [0; 1],
        &mut stored,
        &mut [0; 5],
        &mut [0; 3],
        &mut [0; 4],
    );
    stored[3]
}

// The count with a window's departures, and 2,001 for any more than 2,000. DEPARTURES is blank only for more than that.
fn counted_on(count: usize, departures: i32) -> usize
    requires { count ≤ 2001 }
    ensures { result ≡ counted_on count departures }
{
    match usize::try_from(departures) {
        Ok(more) => (count + more).min(2001),
        Err(_) => 2001,
    }
}

// How many departures there are, and 2,001 for any more than 2,000.
pub(crate) fn count_departures(windows: &Windows) -> usize
    requires windows_in_bounds { (windows.now.count ≤ length windows.now.starts.now) × (windows.now.count ≤ length windows.now.ends.now)
        × (windows.now.count ≤ length windows.now.headways.now) }
    requires numbers_good { NumbersGood (lent_windows windows.now []) }
    ensures { result ≡ min (length (times_below (lent_windows windows.now []) windows.now.count)) 2001 }
{
    let mut count = 0;
    for i in 0..windows.count {
        let departures = departures_of(windows.starts[i], windows.ends[i], windows.headways[i]);
        count = counted_on(count, departures);
    }
    count
}
