// How many bytes the parts of a line are.
ghost use Rattle.std.specs.Prelude.{◌≡◌, ◌≤◌, length};
ghost use Rattle.frequencies.specs.Writing.{digits_of, hours_bytes, time_bytes};

// How many decimal digits a number has, if it has at most this many.
pub(crate) fn digits_size(most: usize, n: usize) -> usize
    ensures { (result ≡ length (digits_of most n)) × (result ≤ most) }
{
    if most == 0 {
        return 0;
    }
    if n < 10 {
        return 1;
    }
    digits_size(most - 1, n / 10) + 1
}

// How many bytes hours are.
fn hours_size(hours: usize) -> usize
    ensures { (result ≡ length (hours_bytes hours)) × (result ≤ 10) }
{
    if hours < 100 {
        return 2;
    }
    digits_size(10, hours)
}

// How many bytes a time is.
pub(crate) fn time_size(time: usize) -> usize
    ensures { (result ≡ length (time_bytes time)) × (result ≤ 16) }
{
    hours_size(time / 3600) + 6
}
