// Check 8 where no chain closes: whether the lent numbers of search variables are 0, and the lent order goes up.
ghost use Rattle.std.specs.Prelude.{◌&&◌, ◌≡◌, ◌≤◌, length};
ghost use Rattle.paper.specs.Lists.{all_below};
ghost use Rattle.order.specs.Ascent.{Keys, rank_of, rises_at};
ghost use Rattle.order.specs.Numbering.{searched_right};

use crate::ascents::order_right;
use tables::lent::Tables;

// Whether every search variable has the number 0. No variable stops the loop, so that it takes several at a time.
fn searched_right(n: usize, by: &[u16], nums: &[u16]) -> bool
    requires { (n ≤ length by.now) × (n ≤ length nums.now) }
    ensures { result ≡ all_below (searched_right by.now nums.now) n }
{
    let mut all = true;
    for v in 0..n {
        all = all & ((by[v] != 0) | (nums[v] == 0));
    }
    all
}

// Whether the lent numbers and order are right: `due` says it of the numbers of what rows make.
pub fn numbered_right(tables: &Tables, by: &[u16], nums: &[u16], ord: &[u16], due: bool) -> bool
    requires keyed { Keys tables.now.n tables.now.m tables.now.makes.now }
    requires there { (tables.now.n ≤ length by.now) × (tables.now.n ≤ length nums.now) × (tables.now.m ≤ length ord.now) }
    ensures { result ≡ ((due && all_below (searched_right by.now nums.now) tables.now.n) && all_below (rises_at (rank_of tables.now.makes.now nums.now) tables.now.m ord.now) tables.now.m) }
{
    due && searched_right(tables.n, by, nums) && order_right(tables, nums, ord)
}
