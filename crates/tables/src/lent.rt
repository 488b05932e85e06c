// What a call is lent to be read, each in the paper's record of that name: the tables, the bounds, a move, the index of readers, the log, and the model.

// n variables, m rows and e entries: one lent row for each field.
#[derive(Clone, Copy)]
pub struct Tables<'a> {
    pub n: usize,
    pub m: usize,
    pub e: usize,
    pub kinds: &'a [u16],
    pub makes: &'a [u16],
    pub params: &'a [i32],
    pub firsts: &'a [u16],
    pub counts: &'a [u16],
    pub vars: &'a [u16],
    pub coefs: &'a [i16],
}

// The lowest and the highest number allowed of each variable.
#[derive(Clone, Copy)]
pub struct Bounds<'a> {
    pub lows: &'a [i32],
    pub highs: &'a [i32],
}

// A move of so many pairs: each names a variable and its new value.
#[derive(Clone, Copy)]
pub struct Move<'a> {
    pub pairs: usize,
    pub vars: &'a [u16],
    pub values: &'a [i32],
}

// The index of readers: where the rows that read each variable start among the places, and the rows.
#[derive(Clone, Copy)]
pub struct Index<'a> {
    pub starts: &'a [u16],
    pub places: &'a [u16],
}

// The log of kept moves: how many, and of each how many pairs, its variables, and their values before it.
#[derive(Clone, Copy)]
pub struct Log<'a> {
    pub sizes: &'a [u16],
    pub vars: &'a [u16],
    pub values: &'a [i32],
}

// The model that trial, keep and taking back are lent.
#[derive(Clone, Copy)]
pub struct Model<'a> {
    pub tables: Tables<'a>,
    pub bounds: Bounds<'a>,
    pub numbers: &'a [u16],
    pub order: &'a [u16],
    pub stored: &'a [i32],
    pub index: Index<'a>,
    pub reasons: &'a [u8],
}
