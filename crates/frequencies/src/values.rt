// What the bytes of a field say: a time, a headway, exact_times; and whether two fields are the same.
ghost use Rattle.std.specs.Prelude.{◌+◌, ◌-◌, ◌*◌, ◌≤◌, ◌≡◌, ◌&&◌, ◌∷◌, [], length, take, IfSome};
ghost use Rattle.paper.specs.Lists.{all, between};
ghost use Rattle.frequencies.specs.Values as specs;
ghost use Rattle.frequencies.specs.Told.{said, value_said};

use formulas::blanks::BLANK;

// The number with one digit more behind it, if a value can be it.
fn next_digit(n: u64, digit: u8) -> Option<u64>
    requires { n ≤ 2147483647 }
    ensures { result ≡ said (specs.is_digit digit) (10 * n + (digit - 48)) }
{
    if !digit.is_ascii_digit() {
        return None;
    }
    let next = 10 * n + u64::from(digit - b'0');
    (next <= 2147483647).then_some(next)
}

// The number that these bytes say, if a value can be it.
fn number_of(bytes: &[u8]) -> Option<u64>
    ensures { result ≡ said (all specs.is_digit bytes.now) (specs.number bytes.now) }
{
    let mut n: u64 = 0;
    for &digit in bytes {
        n = next_digit(n, digit)?;
    }
    Some(n)
}

// The number that two digits say, the first of them at most `most`.
fn pair_of(tens: u8, ones: u8, most: u8) -> Option<u64>
    requires { most ≤ 57 }
    ensures { result ≡ said (between 48 tens most && specs.is_digit ones) (specs.number (tens ∷ ones ∷ [])) }
{
    if tens < b'0' || most < tens || !ones.is_ascii_digit() {
        return None;
    }
    Some(10 * u64::from(tens - b'0') + u64::from(ones - b'0'))
}

// The number that the first k bytes say, if a value can be it; hours are mostly two digits.
fn hours_of(bytes: &[u8], k: usize) -> Option<u64>
    requires { k ≤ length bytes.now }
    ensures { result ≡ said (all specs.is_digit (take k bytes.now)) (specs.number (take k bytes.now)) }
{
    if k == 2 {
        return pair_of(bytes[0], bytes[1], b'9');
    }
    number_of(&bytes[..k])
}

// The seconds that hours, minutes and seconds are, if a value can be so many.
fn seconds_of(bytes: &[u8]) -> Option<u64>
    ensures value { specs.time bytes.now ≡ value_said result }
    ensures small { IfSome result (λ n. n ≤ 2147483647) }
{
    let size = bytes.len();
    if size < 7 {
        return None;
    }
    let k = size - 6;
    let hours = hours_of(bytes, k)?;
    let minutes = pair_of(bytes[k + 1], bytes[k + 2], b'5')?;
    let seconds = pair_of(bytes[k + 4], bytes[k + 5], b'5')?;
    let parted = (b':' == bytes[k]) & (b':' == bytes[k + 3]);
    let time = 3600 * hours + 60 * minutes + seconds;
    if parted & (time <= 2147483647) {
        Some(time)
    } else {
        None
    }
}

// A number as a value, or blank for none.
fn as_value(n: Option<u64>) -> i32
    requires { IfSome n (λ k. k ≤ 2147483647) }
    ensures { result ≡ value_said n }
{
    match n {
        Some(value) => value as i32,
        None => BLANK,
    }
}

// The time that these bytes say, in seconds, or blank.
pub fn time_of(bytes: &[u8]) -> i32
    ensures { result ≡ specs.time bytes.now }
{
    as_value(seconds_of(bytes))
}

// The headway that these bytes say, in seconds, or blank.
pub fn headway_of(bytes: &[u8]) -> i32
    ensures { result ≡ specs.headway bytes.now }
{
    let said = number_of(bytes);
    if said == Some(0) {
        return BLANK;
    }
    as_value(said)
}

// The exact_times that these bytes say: 0, 1, or 2 where they are neither.
pub fn exact_of(bytes: &[u8]) -> u8
    ensures { result ≡ specs.exact bytes.now }
{
    match bytes {
        [] => 0,
        [byte] => zero_or_one(*byte),
        _ => 2,
    }
}

// What the one byte of exact_times says.
// Stays: by `if`, since a `match` on the byte leaves the goal `returns-in_default` without what the arms before it exclude.
fn zero_or_one(byte: u8) -> u8
    ensures { result ≡ specs.exact (byte ∷ []) }
{
    if byte == b'0' {
        0
    } else if byte == b'1' {
        1
    } else {
        2
    }
}

// Two fields are the same.
pub fn same(a: &[u8], b: &[u8]) -> bool
    ensures { result ≡ specs.same a.now b.now }
{
    a == b
}
