// A model file read and built: what the programs print is what build answers, and what it leaves in the rows that they lend.
#![tactic(auto)]

mod reading;

ghost use Rattle.std.specs.Prelude.{◌≡◌, Err};
ghost use Rattle.tables.specs.Lent.{lent_tables};
ghost use Rattle.report.specs.Printed.{left_by_file, of_tables, of_file};

use build::building::build_core;
use checks::bounds::{HIGHEST, LOWEST};
pub use reading::read_full;
use records::Session;
use tables::lent::{Bounds, Tables};
use tables::{Answer, Refusal, refused};

// What building a file comes to: build's answer, or the refusal of a file that is not read, and how many variables the file holds, 0 if it is
// not read.
#[derive(Clone, Copy)]
pub struct Built {
    pub answer: Answer,
    pub n: usize,
}

// What a file that is not read comes to.
fn unread(refusal: Refusal) -> Built
    ensures { (result.answer ≡ Err refusal) × (result.n ≡ 0) }
{
    Built {
        answer: Err(refusal),
        n: 0,
    }
}

// Reads a file and builds what it holds, with full bounds: topological numbers, values and reasons are left in the lent rows. A file of more
// than 65,536 bytes is refused before any other check.
pub fn build_file(file: &[u8], numbers: &mut [u16], stored: &mut [i32], reasons: &mut [u8]) -> Built
    ensures { left_by_file result numbers.new stored.new reasons.new ≡ of_file numbers.old stored.old reasons.old file.now }
{
    if 65536 < file.len() {
        return unread(refused(1, 0));
    }
    // Stays: rows of a fixed length, since no call allocates.
    let mut starts = [0i32; 4096];
    let mut kinds = [0u16; 4096];
    let mut makes = [0u16; 4096];
    let mut params = [0i32; 4096];
    let mut firsts = [0u16; 4096];
    let mut counts = [0u16; 4096];
    let mut vars = [0u16; 16384];
    let mut coefs = [0i16; 16384];
    let read = files::read(
        file,
        &mut starts,
        &mut kinds,
        &mut makes,
        &mut params,
        &mut firsts,
        &mut counts,
        &mut vars,
        &mut coefs,
    );
    match read {
        Ok(size) => {
            let tables = Tables {
                n: size.n,
                m: size.m,
                e: size.e,
                kinds: &kinds,
                makes: &makes,
                params: &params,
                firsts: &firsts,
                counts: &counts,
                vars: &vars,
                coefs: &coefs,
            };
            build_tables(&tables, &starts, numbers, stored, reasons)
        }
        Err(refusal) => unread(refusal),
    }
}

// Builds the tables and start values that a file held.
fn build_tables(
    tables: &Tables,
    starts: &[i32],
    numbers: &mut [u16],
    stored: &mut [i32],
    reasons: &mut [u8],
) -> Built
    ensures { left_by_file result numbers.new stored.new reasons.new
        ≡ of_tables numbers.old stored.old reasons.old (lent_tables tables.now) starts.now }
{
    let bounds = Bounds {
        lows: &[LOWEST; 4096],
        highs: &[HIGHEST; 4096],
    };
    // Stays: rows of a fixed length, since no call allocates.
    let mut order = [0u16; 4096];
    let mut reader_starts = [0u16; 4097];
    let mut reader_places = [0u16; 16384];
    let mut log_sizes = [0u16; 65];
    let done = build_core(
        Session {
            kept: 0,
            evaluations: 0,
            blanks: 0,
        },
        tables,
        &bounds,
        starts,
        numbers,
        &mut order,
        stored,
        &mut reader_starts,
        &mut reader_places,
        reasons,
        &mut log_sizes,
    );
    Built {
        answer: done.answer,
        n: tables.n,
    }
}
