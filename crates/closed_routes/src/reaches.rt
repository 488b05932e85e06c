// Route 3's marks: from each search variable that moved to those made from it, and from these again. Chains may close.
ghost use Rattle.std.specs.Prelude.{true, suc, ◌≤◌, ◌<◌, length};
ghost use Rattle.routes.specs.Reach.{Reaching};
ghost use Rattle.routes.specs.Sections.{made_from};
ghost use Rattle.closed_routes.specs.Walk.{Walked};
ghost use Rattle.routes.specs.Readers.{Markable, Movable, Moved, none};
ghost use Rattle.closed_routes.specs.Readers.{LeadsUp};

use integers::wide;
use rows::steps::moved;
use tables::lent::Index;

// Marks v, and then what its readers make: a chain that comes back to v finds it marked.
// Stays: where chains end, `routes::marks` marks v last, and that it ends is a theorem on the numbers of variables that may not change.
fn spread(v: usize, makes: &[u16], index: &Index, marks: &mut [u8])
    requires upward { LeadsUp makes.now index.now.starts.now index.now.places.now }
    requires there { (suc v < length index.now.starts.now) × (length index.now.starts.now ≤ suc (length marks.old)) }
    ensures { Walked (λ u. true) (made_from makes.now index.now.starts.now index.now.places.now) v marks.old marks.new }
{
    if marks[v] == 1 {
        return;
    }
    marks[v] = 1;
    let end = wide(index.starts[v + 1]);
    for i in wide(index.starts[v])..end {
        let u = wide(makes[wide(index.places[i])]);
        if marks[u] != 1 {
            spread(u, makes, index, marks);
        }
    }
}

// Marks every variable that moved, and what is made from it.
// Stays: no plainer as one with `mark_moved`, which would be handed the walk as a closure over the row and what it promises as laws.
pub fn spread_moved(
    moves: &[u16],
    makes: &[u16],
    index: &Index,
    stored: &[i32],
    trial: &[i32],
    marks: &mut [u8],
)
    requires upward { LeadsUp makes.now index.now.starts.now index.now.places.now }
    requires movable { Movable index.now.starts.now moves.now stored.now trial.now }
    requires markable { Markable makes.now index.now.starts.now index.now.places.now marks.old }
    ensures { Reaching (λ u. true) (made_from makes.now index.now.starts.now index.now.places.now) (Moved moves.now stored.now trial.now) none marks.old marks.new }
{
    for &m in moves {
        let v = wide(m);
        if moved(v, stored, trial) {
            spread(v, makes, index, marks);
        }
    }
}
