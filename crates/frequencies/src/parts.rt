// A part of a file's bytes.
ghost use Rattle.std.specs.Prelude.{◌+◌, ◌≤◌, ◌≡◌, length, take, drop};

// So many bytes from a place on.
#[derive(Clone, Copy)]
pub struct Span {
    pub at: usize,
    pub size: usize,
}

// These bytes.
pub fn part(bytes: &[u8], span: Span) -> &[u8]
    requires { span.at + span.size ≤ length bytes.now }
    ensures { result.now ≡ take span.size (drop span.at bytes.now) }
{
    &bytes[span.at..span.at + span.size]
}
