// What a file gives by the counts in its header, laid over scratch rows: a byte that the file lacks is 0.
ghost use Rattle.std.specs.Prelude.{◌≡◌, length};
ghost use Rattle.paper.specs.Lists.{nat, below};
ghost use Rattle.paper.specs.Tables.{lent};
ghost use Rattle.paper.specs.Checks.{accepted, by_lines};
ghost use Rattle.paper.specs.File.{version1, head_lines, n_in, m_in, e_in};
ghost use Rattle.damage.specs.Scratch.{Laid};

use fields::columns::lay_starts;
use fields::laid::{lay_entries, lay_rows};
use fields::places::{Size, Version};

// Fills a buffer with the bytes of a file, and with 0 where the file has ended.
fn fill(bytes: &[u8], out: &mut [u8])
    ensures { out.new ≡ below (nat bytes.now) (length out.new) }
{
    let len = bytes.len().min(out.len());
    out[..len].copy_from_slice(&bytes[..len]);
    out[len..].fill(0);
}

// Lays the tables and start values that the file gives over scratch rows. The longest file that counts can ask for has 131,096 bytes.
// Stays: the rows are written: with a struct of them lent as `&mut` the goal `returns-clause-kinds_after` of lay_rows stayed open, and each row would need a clause that it is still the caller's.
pub fn lay_given(
    bytes: &[u8],
    size: Size,
    starts: &mut [i32; 4096],
    kinds: &mut [u16; 4096],
    makes: &mut [u16; 4096],
    params: &mut [i32; 4096],
    firsts: &mut [u16; 4096],
    counts: &mut [u16; 4096],
    vars: &mut [u16; 16384],
    coefs: &mut [i16; 16384],
)
    requires n_value { (size.n ≡ n_in bytes.now) × (size.m ≡ m_in bytes.now) × (size.e ≡ e_in bytes.now) }
    requires accepted_value { by_lines (head_lines version1 bytes.now) accepted ≡ accepted }
    ensures { Laid bytes.now (lent size.n size.m size.e kinds.new makes.new params.new firsts.new counts.new
        vars.new coefs.new) starts.new }
{
    // Stays: rows of a fixed length, since no call allocates.
    let mut file = [0u8; 131096];
    fill(bytes, &mut file);
    let head = Version::One.head_length();
    lay_starts(&file, head, size.n, starts);
    lay_rows(&file, head, size, kinds, makes, params, firsts, counts);
    lay_entries(&file, head, size, vars, coefs);
}
