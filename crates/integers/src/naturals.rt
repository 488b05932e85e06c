// The number of moves kept, which goes up and down by one below a ceiling where it stays.
ghost use Rattle.std.specs.Prelude.{◌≡◌, cond, suc, pred, min, ltb};

// The number of moves kept, with one more; the greatest number stays.
pub fn kept_once_more(kept: u32) -> u32
    ensures { result ≡ min (suc kept) 4294967295 }
{
    kept.saturating_add(1)
}

// The number of moves kept, with one fewer; the greatest number stays.
pub fn kept_once_less(kept: u32) -> u32
    ensures { result ≡ cond (ltb kept 4294967295) (pred kept) kept }
{
    if kept == u32::MAX {
        return kept;
    }
    kept.saturating_sub(1)
}
