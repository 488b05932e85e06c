// A file judged: the answer by what was found of its header and rows, and what reading it needs.
ghost use Rattle.std.specs.Prelude.{◌≡◌};
ghost use Rattle.frequencies.specs.Reading.{carried_by};
ghost use Rattle.frequencies.specs.Scan.{Scannable};
ghost use Rattle.frequencies.specs.Judging.{LinesSmall};
ghost use Rattle.frequencies.specs.Deciding.{Least, decided, BodyJudged, FileJudged};

use crate::ends::{body_end, mark_length};
use crate::fields::Place;
use crate::header::read_header;
use crate::judge::{Judged, first_bad, judge_rows};
use crate::refusals::{none_fails, refused};
use crate::rows::Columns;
use tables::Refusal;

// The least of the lengths of the lent rows.
// Stays: eight numbers, one for each row that is lent to be written; a loop over an array of them is no plainer.
pub fn least_room(
    a: usize,
    b: usize,
    c: usize,
    d: usize,
    e: usize,
    f: usize,
    g: usize,
    h: usize,
) -> usize
    ensures { Least result a b c d e f g h }
{
    a.min(b.min(c.min(d.min(e.min(f.min(g.min(h)))))))
}

// The count of rows, or what refuses the file by what was found, one number after the other.
fn decide(good: bool, room: usize, j: Judged) -> Result<usize, Refusal>
    requires { LinesSmall j }
    ensures { result ≡ carried_by (decided good room j) j.count }
{
    if room < j.count {
        return Err(refused(1, 0));
    }
    if !good {
        return Err(refused(2, 1));
    }
    none_fails(3, j.widths)?;
    none_fails(4, j.quotes)?;
    none_fails(5, j.times)?;
    none_fails(6, j.headways)?;
    none_fails(7, j.exacts)?;
    none_fails(8, j.names)?;
    Ok(j.count)
}

// A file accepted: how many rows it has behind the header, the columns, where its rows end, and where the first row behind the header
// begins, if there is one.
#[derive(Clone, Copy)]
pub struct Judgement {
    pub count: usize,
    pub columns: Columns,
    pub end: usize,
    pub next: Option<Place>,
}

// Judges the bytes of a file without the line ends at its end, from behind the byte order mark on.
fn judge_body(bytes: &[u8], mark: usize, room: usize) -> Result<Judgement, Refusal>
    requires { Scannable bytes.now mark 1 }
    ensures { BodyJudged bytes.now mark room result }
{
    let h = read_header(bytes, mark);
    let columns = h.columns;
    let start = Judged {
        count: 0,
        widths: None,
        quotes: first_bad(None, h.right, 1),
        times: None,
        headways: None,
        exacts: None,
        names: None,
        next: h.next,
    };
    let j = judge_rows(bytes, columns, h.width, start);
    let count = decide(h.good, room, j)?;
    Ok(Judgement {
        count,
        columns,
        end: bytes.len(),
        next: h.next,
    })
}

// Judges a file, with room for this many windows.
pub fn judge_file(bytes: &[u8], room: usize) -> Result<Judgement, Refusal>
    ensures { FileJudged bytes.now room result }
{
    if bytes.len() > 2147483647 {
        return Err(refused(1, 0));
    }
    let mark = mark_length(bytes);
    let end = body_end(bytes, mark);
    judge_body(&bytes[..end], mark, room)
}
