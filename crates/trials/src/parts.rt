// The part of a batch's pairs that a move has.
ghost use Rattle.std.specs.Prelude.{◌≡◌, ◌+◌, ◌<◌, take, drop};

// The variables or the new values of a move's pairs, as many of them as there are.
pub fn part<T>(at: usize, pairs: usize, rows: &[T]) -> &[T]
    requires { at + pairs < 4294967296 }
    ensures { result.now ≡ take pairs (drop at rows.now) }
{
    let end = rows.len().min(at + pairs);
    let start = at.min(end);
    &rows[start..end]
}
