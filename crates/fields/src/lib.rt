// Numbers in a model file, and what it is made of: fields, columns, lines, bounds and the header, and where each part begins.
#![tactic(auto)]

pub mod columns;
pub mod laid;
pub mod limits;
pub mod lines;
pub mod numbers;
pub mod places;

ghost use Rattle.std.specs.Prelude.{◌≡◌, ◌+◌, ◌≤◌, length};
ghost use Rattle.std.proofs.lemmas.List.Edits.{sets};
ghost use Rattle.paper.specs.File.{bytes_of};

// The four lowest bytes of a number.
fn split(x: usize) -> [u8; 4]
    ensures { result ≡ bytes_of 4 x }
{
    let first = (x % 256) as u8;
    let second = (x / 256 % 256) as u8;
    let third = (x / 256 / 256 % 256) as u8;
    let fourth = (x / 256 / 256 / 256 % 256) as u8;
    [first, second, third, fourth]
}

// Stores a number in a field: as many of its lowest bytes as the field is wide.
// Stays: k picks the byte and its place; of a width that is known the loop is so many stores.
pub fn put(bytes: &mut [u8], at: usize, width: usize, x: usize)
    requires { (width ≤ 4) × (at + width ≤ length bytes.old) }
    ensures { bytes.new ≡ sets bytes.old at (bytes_of width x) }
{
    let low = split(x);
    for k in 0..width {
        bytes[at + k] = low[k];
    }
}
