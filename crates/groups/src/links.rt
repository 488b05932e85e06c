// The links of n variables: where those of each begin and where they stop among the entries, and the variable that each entry leads to.
#[derive(Clone, Copy)]
pub struct Links<'a> {
    pub n: usize,
    pub begins: &'a [u16; 4096],
    pub stops: &'a [u16; 4096],
    pub vars: &'a [u16],
}
