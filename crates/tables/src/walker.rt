// The walker, for long rows: it holds the lent entry table and the place reached, and yields one entry after another. `entry_at`, which does the
// work, and `entry_from`, for every other caller, take plain slices.
ghost use Rattle.std.specs.Prelude.{◌≡◌};
ghost use Rattle.tables.specs.Entries.{step_at, went_on};

#[derive(Clone, Copy)]
pub struct Walker<'a, 'b> {
    pub vars: &'a [u16],
    pub coefs: &'b [i16],
    pub at: usize,
}

// An entry of the table.
#[derive(Clone, Copy)]
pub struct Entry {
    pub variable: u16,
    pub coefficient: i16,
}

// What stands at a place of the entry table, if anything does, and the place after it.
#[derive(Clone, Copy)]
pub struct Step {
    pub found: Option<Entry>,
    pub at: usize,
}

// What stands at a place of the entry table, and the place after it; at the end the place stays.
pub fn entry_at(vars: &[u16], coefs: &[i16], at: usize) -> Step
    ensures { result ≡ step_at vars.now coefs.now at }
{
    if (at < vars.len()) & (at < coefs.len()) {
        return Step {
            found: Some(Entry {
                variable: vars[at],
                coefficient: coefs[at],
            }),
            at: at + 1,
        };
    }
    Step { found: None, at }
}

impl<'a, 'b> Walker<'a, 'b> {
    // A walker over the lent entry table, at a place.
    pub fn new(vars: &'a [u16], coefs: &'b [i16], at: usize) -> Walker<'a, 'b>
        ensures { result ≡ record { vars = vars.entry; coefs = coefs.entry; at = at } }
    {
        Walker { vars, coefs, at }
    }

    // What stands at the place reached, and the place after it.
    pub fn peek(&self) -> Step
        ensures { result ≡ step_at self.now.vars.now self.now.coefs.now self.now.at }
    {
        entry_at(self.vars, self.coefs, self.at)
    }

    // The next entry: the walker is lent, yields what stands at the place reached, and goes on to the place after it.
    // Stays: no `impl Iterator`, since docs/STATEMENTS says what this method promises, `went_on`.
    pub fn next(&mut self) -> Option<Entry>
        ensures { went_on self.old self.new result }
    {
        let step = self.peek();
        self.at = step.at;
        step.found
    }
}

// What a walker finds at a place, and the place after it, for a caller that holds the slices alone.
// Stays: beside `entry_at`, which promises the same, since docs/ARCHITECTURE names both.
pub fn entry_from(vars: &[u16], coefs: &[i16], at: usize) -> Step
    ensures { result ≡ step_at vars.now coefs.now at }
{
    Walker::new(vars, coefs, at).peek()
}
