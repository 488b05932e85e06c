// Rows and variables by their flags: counted, and listed.
ghost use Rattle.std.specs.Prelude.{false, ◌++◌, ◌≡◌, ◌+◌, ◌≤◌, length, drop};
ghost use Rattle.std.proofs.lemmas.List.Edits.{sets};
ghost use Rattle.damage.specs.Flags.{flagged};

// Lists the numbers below n whose flag is the one wanted: where the list ends.
pub fn list_flagged(n: usize, flags: &[bool], wanted: bool, at: usize, list: &mut [u16]) -> usize
    requires { (n ≤ length flags.now) × (n ≤ 65536) × (at + length (flagged wanted flags.now n) ≤ length list.old) }
    ensures { (result ≡ at + length (flagged wanted flags.now n)) × (list.new ≡ sets list.old at (flagged wanted flags.now n)) }
{
    let mut to = at;
    for (i, &flag) in flags[..n].iter().enumerate() {
        if flag == wanted {
            list[to] = i as u16;
            to += 1;
        }
    }
    to
}

// How many numbers below n have the flag wanted.
pub fn count_flagged(n: usize, flags: &[bool], wanted: bool) -> usize
    requires { (n ≤ length flags.now) × (n ≤ 65536) }
    ensures { result ≡ length (flagged wanted flags.now n) }
{
    let mut k = 0;
    for &flag in &flags[..n] {
        if flag == wanted {
            k += 1;
        }
    }
    k
}

// Lists the numbers below m whose flag in `row` is not set, and then those below n whose flag in `taken` is not.
pub fn list_unset(m: usize, row: &[bool], n: usize, taken: &[bool], list: &mut [u16])
    requires there { (m ≤ length row.now) × (n ≤ length taken.now) × (m ≤ 4096) × (n ≤ 4096) }
    requires room { length (flagged false row.now m ++ flagged false taken.now n) ≤ length list.old }
    ensures { list.new ≡ (flagged false row.now m ++ flagged false taken.now n)
        ++ drop (length (flagged false row.now m ++ flagged false taken.now n)) list.old }
{
    let end = list_flagged(m, row, false, 0, list);
    list_flagged(n, taken, false, end, list);
}
