// Route 3's marks: from each search variable that moved to those made from it, and from these again.
ghost use Rattle.std.specs.Prelude.{true, suc, ◌<◌, length};
ghost use Rattle.routes.specs.Reach.{Reached, Reaching};
ghost use Rattle.routes.specs.Sections.{made_from};
ghost use Rattle.routes.specs.Readers.{Upward, Markable, Movable, Moved, none};

use integers::wide;
use rows::steps::moved;
use tables::lent::Index;

// Marks what the readers of v make, and after it v itself.
fn mark(v: usize, makes: &[u16], index: &Index, marks: &mut [u8])
    requires upward { Upward makes.now index.now.starts.now index.now.places.now }
    requires there { suc v < length index.now.starts.now }
    requires markable { Markable makes.now index.now.starts.now index.now.places.now marks.old }
    ensures { Reached (λ u. true) (made_from makes.now index.now.starts.now index.now.places.now) v marks.old marks.new }
{
    if marks[v] == 1 {
        return;
    }
    let end = wide(index.starts[v + 1]);
    for i in wide(index.starts[v])..end {
        let u = wide(makes[wide(index.places[i])]);
        if marks[u] != 1 {
            mark(u, makes, index, marks);
        }
    }
    marks[v] = 1;
}

// Marks every variable that moved, each after what is made from it.
pub fn mark_moved(
    moves: &[u16],
    makes: &[u16],
    index: &Index,
    stored: &[i32],
    trial: &[i32],
    marks: &mut [u8],
)
    requires upward { Upward makes.now index.now.starts.now index.now.places.now }
    requires movable { Movable index.now.starts.now moves.now stored.now trial.now }
    requires markable { Markable makes.now index.now.starts.now index.now.places.now marks.old }
    ensures { Reaching (λ u. true) (made_from makes.now index.now.starts.now index.now.places.now) (Moved moves.now stored.now trial.now) none marks.old marks.new }
{
    for &m in moves {
        let v = wide(m);
        if moved(v, stored, trial) {
            mark(v, makes, index, marks);
        }
    }
}
