// What the runs print: text, values and times of the day.
use formulas::blanks::is_blank;
use std::io;

// Prints text as it is.
pub fn text<R: Print>(rt: &R, bytes: &[u8]) -> io::Result<()> {
    rt.write_all(bytes)
}

// Prints a number without a sign.
fn number<R: Print>(rt: &R, n: u64) -> io::Result<()> {
    rt.print(n)
}

// Prints a value, or the word blank.
pub fn value<R: Print>(rt: &R, v: i32) -> io::Result<()> {
    if is_blank(v) {
        return text(rt, b"blank");
    }
    rt.print(v)
}

// Prints a number below 100 in two digits.
fn two_digits<R: Print>(rt: &R, n: u32) -> io::Result<()> {
    if n < 10 {
        text(rt, b"0")?;
    }
    number(rt, n as u64)
}

// Prints a time of the day, or a value that is none.
pub fn clock<R: Print>(rt: &R, time: i32) -> io::Result<()> {
    if time < 0 {
        return value(rt, time);
    }
    let seconds = time.unsigned_abs();
    two_digits(rt, seconds / 3600)?;
    text(rt, b":")?;
    two_digits(rt, seconds / 60 % 60)?;
    text(rt, b":")?;
    two_digits(rt, seconds % 60)
}
