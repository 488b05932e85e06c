// The call that writes: judged first, and nothing written before it is accepted.
ghost use Rattle.std.specs.Prelude.{◌≡◌, min, length};
ghost use Rattle.frequencies.specs.Puts.{Puts, AllSayable, AllExact};
ghost use Rattle.frequencies.specs.Reading.{carried_by};
ghost use Rattle.frequencies.specs.Writing.{file_bytes, write_verdict, write_frequencies, left_by_writing};
ghost use Rattle.frequencies.specs.Lent.{lent_windows, AllLent};

use crate::Windows;
use crate::checks::{
    first_bad_exact, first_bad_headway, first_bad_name, first_bad_time, first_single_quote,
    rows_lent,
};
use crate::lines::{put_window, window_at, window_size};
use crate::puts::put_all;
use crate::refusals::{none_fails, refused};
use tables::Refusal;

// How many bytes the file is, and 2,147,483,648 for any more than 2,147,483,647.
fn file_size(text: &[u8], windows: &Windows) -> usize
    requires lent { AllLent windows.now }
    requires all_sayable { AllSayable windows.now.count text.now (lent_windows windows.now) }
    ensures { result ≡ min (length (file_bytes windows.now.count text.now (lent_windows windows.now))) 2147483648 }
{
    let mut size = 53;
    for i in 0..windows.count {
        let line = window_size(text, window_at(windows, i));
        size = (size + line).min(2147483648);
    }
    size
}

// Puts the file.
fn put_file(text: &[u8], windows: &Windows, out: &mut [u8]) -> usize
    requires lent { AllLent windows.now }
    requires all_sayable { AllSayable windows.now.count text.now (lent_windows windows.now) }
    requires all_exact { AllExact windows.now.count (lent_windows windows.now) }
    ensures { Puts (file_bytes windows.now.count text.now (lent_windows windows.now)) out.old 0 out.new result }
{
    let mut at = put_all(
        out,
        0,
        b"trip_id,start_time,end_time,headway_secs,exact_times\n",
    );
    for i in 0..windows.count {
        at = put_window(text, window_at(windows, i), out, at);
    }
    at
}

// Checks 1 and 4 to 9, each over all windows before the next.
fn judge(text: &[u8], windows: &Windows, bytes: &[u8]) -> Result<usize, Refusal>
    ensures { let w = lent_windows windows.now
        in result ≡ carried_by (write_verdict windows.now.count text.now w bytes.now) (length (file_bytes windows.now.count text.now w)) }
{
    if !rows_lent(windows) {
        return Err(refused(1, 0));
    }
    none_fails(4, first_single_quote(text, windows))?;
    none_fails(5, first_bad_time(windows))?;
    none_fails(6, first_bad_headway(windows))?;
    none_fails(7, first_bad_exact(windows))?;
    none_fails(8, first_bad_name(text, windows))?;
    let size = file_size(text, windows);
    if bytes.len().min(2147483647) < size {
        return Err(refused(9, 0));
    }
    Ok(size)
}

// Writes the windows as the file's bytes, in the first places of the buffer: how many bytes. The names stand in the text.
pub fn write_frequencies(text: &[u8], windows: &Windows, bytes: &mut [u8]) -> Result<usize, Refusal>
    ensures { left_by_writing result bytes.new ≡ write_frequencies windows.now.count text.now (lent_windows windows.now) bytes.old }
{
    let size = judge(text, windows, bytes)?;
    put_file(text, windows, bytes);
    Ok(size)
}
