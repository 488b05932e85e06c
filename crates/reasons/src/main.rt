// Reads a model file on standard input, builds the model, and prints the refusal line or the list with reasons: a blank as `blank:` followed
// by its reason. A read that fails counts as the end of the input. One byte more than the longest file is read, so that a longer input shows.
#![tactic(auto)]

ghost use Rattle.std.specs.Prelude.{true, ◌++◌, ◌≡◌, length, drop};
ghost use Rattle.io.specs.Counts.{IsPrefixLen};
ghost use Rattle.report.specs.Printed.{printed};

use report::{build_file, read_full};

// Room for every text.
const ROOM: usize = 98304;

// The text for a file, the refusal line where there is one and otherwise the list with reasons: it stands whole in front of the buffer, and the answer is
// how many bytes it has.
fn show(file: &[u8], out: &mut [u8; ROOM]) -> usize
    ensures prefix_len { IsPrefixLen result out.new }
    ensures value { result ≡ length (printed true file.now) }
    ensures out_after { out.new ≡ printed true file.now ++ drop result out.old }
{
    // Stays: rows of a fixed length: a program that allocates could fail where this one prints.
    let mut numbers = [0u16; 4096];
    let mut stored = [0i32; 4096];
    let mut row = [0u8; 4096];
    let built = build_file(file, &mut numbers, &mut stored, &mut row);
    let Err(refusal) = built.answer else {
        return text::lines(true, built.n, &numbers, &stored, &row, out);
    };
    text::refusal(refusal.number, refusal.place, out)
}

fn main(rt: HostRuntime) -> std::io::Result<()> {
    // Stays: rows of a fixed length: a program that allocates could fail where this one prints.
    let mut file = [0u8; 65537];
    let got = read_full(&mut rt.stdin(), &mut file);
    let mut out = [0u8; ROOM];
    let k = show(&file[..got], &mut out);
    rt.write_all(&out[..k])
}
