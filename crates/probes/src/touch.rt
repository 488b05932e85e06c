// Route 3's marks with a list of what is marked: from each search variable that moved to those made from it, and from these again.
ghost use Rattle.std.specs.Prelude.{true, suc, ◌≤◌, ◌<◌, length};
ghost use Rattle.routes.specs.Reach.{Reaching};
ghost use Rattle.routes.specs.Sections.{made_from};
ghost use Rattle.routes.specs.Readers.{variables, Markable, Movable, Moved, none};
ghost use Rattle.closed_routes.specs.Readers.{LeadsUp};
ghost use Rattle.closed_routes.specs.Walk.{Walked};
ghost use Rattle.probes.specs.Touched.{Noted};

use integers::wide;
use rows::steps::moved;
use tables::lent::Index;

// Marks v, lists it and plans its work, and then does so with what its readers make; answers how many are listed.
// Stays: no plainer as one with the walk of `closed_routes::reaches`, which has no list and no work: each would be handed the steps of the other.
fn touch(
    v: usize,
    makes: &[u16],
    index: &Index,
    by: &[u16],
    marks: &mut [u8],
    work: &mut [u16],
    touched: &mut [u16],
    count: usize,
) -> usize
    requires upward { LeadsUp makes.now index.now.starts.now index.now.places.now }
    requires there { (suc v < length index.now.starts.now) × (length index.now.starts.now ≤ suc (length marks.old)) × (v < 65536) }
    requires noted { Noted (variables index.now.starts.now) by.now marks.old work.old touched.old count }
    ensures walked { Walked (λ u. true) (made_from makes.now index.now.starts.now index.now.places.now) v marks.old marks.new }
    ensures noted { Noted (variables index.now.starts.now) by.now marks.new work.new touched.new result }
{
    if marks[v] == 1 {
        return count;
    }
    marks[v] = 1;
    work[v] = by[v];
    touched[count] = v as u16;
    let end = wide(index.starts[v + 1]);
    let mut listed = count + 1;
    // Stays: a slice asks that it does not begin beyond its end, which `LeadsUp` does not say and may not ask.
    for i in wide(index.starts[v])..end {
        let u = wide(makes[wide(index.places[i])]);
        if marks[u] != 1 {
            listed = touch(u, makes, index, by, marks, work, touched, listed);
        }
    }
    listed
}

// Touches every variable that moved, and what is made from it; answers how many are listed.
pub fn touch_moved(
    moves: &[u16],
    makes: &[u16],
    index: &Index,
    by: &[u16],
    stored: &[i32],
    trial: &[i32],
    marks: &mut [u8],
    work: &mut [u16],
    touched: &mut [u16],
) -> usize
    requires upward { LeadsUp makes.now index.now.starts.now index.now.places.now }
    requires movable { Movable index.now.starts.now moves.now stored.now trial.now }
    requires markable { Markable makes.now index.now.starts.now index.now.places.now marks.old }
    requires noted { Noted (variables index.now.starts.now) by.now marks.old work.old touched.old 0 }
    ensures marked { Reaching (λ u. true) (made_from makes.now index.now.starts.now index.now.places.now) (Moved moves.now stored.now trial.now) none marks.old marks.new }
    ensures noted { Noted (variables index.now.starts.now) by.now marks.new work.new touched.new result }
{
    let mut count = 0;
    for &m in moves {
        let v = wide(m);
        if moved(v, stored, trial) {
            count = touch(v, makes, index, by, marks, work, touched, count);
        }
    }
    count
}
