// The golden runs: what `values` prints for each file that the arguments name, and then what `reasons` does, under the file's name.
#![tactic(auto)]

ghost use Rattle.io.specs.Counts.{IsPrefixLen};

use report::{build_file, read_full};
use std::fs::Files;

// The text for a file, with reasons or without, in front of the buffer, and how many bytes it has.
fn put_text(reasons: bool, file: &[u8], out: &mut [u8; 98304]) -> usize
    ensures { IsPrefixLen result out.new }
{
    // Stays: rows of a fixed length: a program that allocates could fail where this one prints.
    let mut numbers = [0u16; 4096];
    let mut stored = [0i32; 4096];
    let mut row = [0u8; 4096];
    let built = build_file(file, &mut numbers, &mut stored, &mut row);
    let Err(refusal) = built.answer else {
        return text::lines(reasons, built.n, &numbers, &stored, &row, out);
    };
    text::refusal(refusal.number, refusal.place, out)
}

// Prints the text for a file, with reasons or without.
fn show_text<R: Print>(rt: &R, reasons: bool, file: &[u8]) -> std::io::Result<()> {
    // Stays: rows of a fixed length: a program that allocates could fail where this one prints.
    let mut out = [0u8; 98304];
    let k = put_text(reasons, file, &mut out);
    rt.write_all(&out[..k])
}

// Prints a file's name, and both texts for it; a file that does not open is named on the error stream.
fn show_named<R: Print + Eprint + Files>(rt: &R, name: &str) -> std::io::Result<()> {
    rt.write_all(b"# ")?;
    rt.write_all(name.as_bytes())?;
    rt.write_all(b"\n")?;
    let mut input = match std::fs::open(rt, name) {
        Ok(input) => input,
        Err(error) => return eprintln!(rt; "{name}: {error}"),
    };
    // Stays: rows of a fixed length: a program that allocates could fail where this one prints.
    let mut file = [0u8; 65537];
    let got = read_full(&mut input, &mut file);
    show_text(rt, false, &file[..got])?;
    show_text(rt, true, &file[..got])
}

fn main(rt: HostRuntime) -> std::io::Result<()> {
    for name in std::env::args(&rt)?.skip(1) {
        show_named(&rt, name.as_str())?;
    }
    Ok(())
}
