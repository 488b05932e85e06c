// What a trial is asked beside its move.

// How many variables are asked, which, and by which route.
// Stays: the count beside the row, and the route as a number: C lends them so, and checks 1 and 9 answer what does not fit.
#[derive(Clone, Copy)]
pub struct Asked<'a> {
    pub count: usize,
    pub vars: &'a [u16],
    pub route: u32,
}
