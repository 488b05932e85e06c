// A field, scanned from its first byte on: where it ends, and where what is behind it begins. A field in quotes is passed to the quote that closes it, and
// what is left of any field without quotes.
ghost use Rattle.std.specs.Prelude.{◌≤◌, ◌≡◌, true, false, length, drop};
ghost use Rattle.frequencies.specs.Scan.{Scannable, headed_by, goes_on, stays_in, QuotesClosed, PlainEnded, EndPassed, FieldScanned, row_behind};

// Whether byte x stands at place i.
pub fn stands(bytes: &[u8], i: usize, x: u8) -> bool
    ensures { result ≡ headed_by x (drop i bytes.now) }
{
    i < bytes.len() && x == bytes[i]
}

// Whether the byte at place i is one of a field without quotes. Most are greater than a comma, and no other byte that ends a field is.
fn goes_on(bytes: &[u8], i: usize) -> bool
    ensures { result ≡ goes_on (drop i bytes.now) }
{
    if bytes.len() <= i {
        return false;
    }
    let b = bytes[i];
    if b',' < b {
        return true;
    }
    if b'\r' == b {
        return !stands(bytes, i + 1, b'\n');
    }
    (b',' != b) & (b'\n' != b)
}

// Whether the byte at place i is one between quotes: behind a quote, another.
fn stays_in(bytes: &[u8], i: usize, closing: bool) -> bool
    ensures { result ≡ stays_in closing (drop i bytes.now) }
{
    if bytes.len() <= i {
        return false;
    }
    !closing | (b'"' == bytes[i])
}

// A place among a file's bytes, and the line that it is on.
#[derive(Clone, Copy)]
pub struct Place {
    pub at: usize,
    pub line: usize,
}

// What is behind a field: behind a comma another field at a place, behind a line end another row, and behind the file's end neither.
#[derive(Clone, Copy)]
pub enum Behind {
    Comma(Place),
    Line(Place),
    File,
}

// The next row, if a row's last field is behind it.
pub fn row_behind(behind: Behind) -> Option<Place>
    ensures { result ≡ row_behind behind }
{
    match behind {
        Behind::Line(place) => Some(place),
        _ => None,
    }
}

// Behind the quotes of a field, or at the end of a file that does not close them: the place, and whether a quote is before it that closes the field.
#[derive(Drop)]
pub struct Closing {
    pub end: Place,
    pub closing: bool,
}

// Passes the bytes between the quotes of a field, from behind the first one on.
// Stays: counted by `while`, since its test reads on from the place to which it has come; no form of std's is plainer.
fn pass_quotes(bytes: &[u8], from: Place) -> Closing
    requires { Scannable bytes.now from.at from.line }
    ensures { QuotesClosed bytes.now from.at from.line result }
{
    let mut i = from.at;
    let mut lines = from.line;
    let mut closing = false;
    while stays_in(bytes, i, closing) {
        let b = bytes[i];
        closing = !closing & (b'"' == b);
        lines += usize::from(b'\n' == b);
        i += 1;
    }
    Closing {
        end: Place { at: i, line: lines },
        closing,
    }
}

// The end of a field without quotes, and whether there are any in it.
#[derive(Drop)]
pub struct Plain {
    pub end: usize,
    pub quote: bool,
}

// Passes the bytes of a field without quotes.
// Stays: counted by `while`, since its test reads on from the place to which it has come; no form of std's is plainer.
fn pass_plain(bytes: &[u8], at: usize) -> Plain
    requires { at ≤ length bytes.now }
    ensures { PlainEnded bytes.now at result }
{
    let mut i = at;
    let mut quote = false;
    while goes_on(bytes, i) {
        quote = quote | (b'"' == bytes[i]);
        i += 1;
    }
    Plain { end: i, quote }
}

// Passes the end of a field.
fn pass_end(bytes: &[u8], end: Place) -> Behind
    requires here { Scannable bytes.now end.at end.line }
    requires ends { goes_on (drop end.at bytes.now) ≡ false }
    ensures { EndPassed bytes.now end.at end.line result }
{
    let at = end.at;
    if bytes.len() <= at {
        return Behind::File;
    }
    let b = bytes[at];
    if b',' == b {
        return Behind::Comma(Place {
            at: at + 1,
            line: end.line,
        });
    }
    let size = 1 + usize::from(b'\r' == b);
    Behind::Line(Place {
        at: at + size,
        line: end.line + 1,
    })
}

// A field: where it ends, what is behind it, whether it begins with a quote, and whether its quotes stand only where they may.
#[derive(Clone, Copy)]
pub struct FieldScan {
    pub end: usize,
    pub behind: Behind,
    pub quoted: bool,
    pub right: bool,
}

// Scans a field that does not begin with a quote.
fn scan_plain(bytes: &[u8], from: Place) -> FieldScan
    requires here { Scannable bytes.now from.at from.line }
    requires plain { headed_by 34 (drop from.at bytes.now) ≡ false }
    ensures { FieldScanned bytes.now from.at from.line result }
{
    let passed = pass_plain(bytes, from.at);
    let end = passed.end;
    let behind = pass_end(
        bytes,
        Place {
            at: end,
            line: from.line,
        },
    );
    FieldScan {
        end,
        behind,
        quoted: false,
        right: !passed.quote,
    }
}

// Scans a field that begins with a quote. Behind the quote that closes it nothing may stand.
fn scan_quoted(bytes: &[u8], from: Place) -> FieldScan
    requires here { Scannable bytes.now from.at from.line }
    requires quoted { headed_by 34 (drop from.at bytes.now) ≡ true }
    ensures { FieldScanned bytes.now from.at from.line result }
{
    let closing = pass_quotes(
        bytes,
        Place {
            at: from.at + 1,
            line: from.line,
        },
    );
    let closed = closing.end;
    let passed = pass_plain(bytes, closed.at);
    let end = passed.end;
    let behind = pass_end(
        bytes,
        Place {
            at: end,
            line: closed.line,
        },
    );
    FieldScan {
        end,
        behind,
        quoted: true,
        right: closing.closing & (end == closed.at),
    }
}

// Scans the field at a place.
pub fn scan_field(bytes: &[u8], from: Place) -> FieldScan
    requires { Scannable bytes.now from.at from.line }
    ensures { FieldScanned bytes.now from.at from.line result }
{
    if stands(bytes, from.at, b'"') {
        return scan_quoted(bytes, from);
    }
    scan_plain(bytes, from)
}
