// Whether a lent order goes up: check 8 of the order, once the numbers are right.
ghost use Rattle.std.specs.Prelude.{◌≡◌, ◌≤◌, length};
ghost use Rattle.paper.specs.Lists.{all_below};
ghost use Rattle.order.specs.Ascent.{Keys, rank_of, rises_at};

use integers::wide;
use tables::lent::Tables;

// Whether the order holds rows, and they go up by number and then by row.
pub fn order_right(tables: &Tables, nums: &[u16], ord: &[u16]) -> bool
    requires keyed { Keys tables.now.n tables.now.m tables.now.makes.now }
    requires there { (tables.now.n ≤ length nums.now) × (tables.now.m ≤ length ord.now) }
    ensures { result ≡ all_below (rises_at (rank_of tables.now.makes.now nums.now) tables.now.m ord.now) tables.now.m }
{
    let mut least = 0;
    for &row in &ord[..tables.m] {
        let r = wide(row);
        if r >= tables.m {
            return false;
        }
        let stands = wide(nums[wide(tables.makes[r])]) * 65536 + r;
        if stands < least {
            return false;
        }
        least = stands + 1;
    }
    true
}
