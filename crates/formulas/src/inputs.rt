// The inputs of a row: the variables in its places, a part of the lent entries, over the lent row of values.
ghost use Rattle.std.specs.Prelude.{◌<◌, ◌≤◌, ◌≡◌, cond, length, take};
ghost use Rattle.paper.specs.Formula.{input_at, some_blank};
ghost use Rattle.paper.specs.Formula as Formula;
ghost use Rattle.formulas.specs.Inputs.{unless_blank, Within};

use crate::blanks::BLANK;

// The variables in the places of a row, and the values, among which each of these variables has one.
#[derive(Clone, Copy)]
pub struct Inputs<'a> {
    pub vars: &'a [u16],
    pub values: &'a [i32],
    pub ghost within: { Within vars.now values.now },
}

impl<'a> Inputs<'a> {
    ghost use Rattle.formulas.specs.Given.{inputs_of};

    // How many places there are.
    pub fn len(self) -> usize
        ensures { result ≡ length self.entry.vars.now }
    {
        self.vars.len()
    }

    // The value of the variable in place i.
    pub fn at(self, i: usize) -> i32
        requires { i < length self.vars.now }
        ensures { result ≡ input_at (inputs_of self.entry) i }
    {
        self.values[usize::from(self.vars[i])]
    }

    // Copies the inputs to the front of a row, each to its place.
    pub fn copy_to(self, held: &mut [i32])
        requires { length self.vars.now ≤ length held.old }
        ensures { take (length self.entry.vars.now) held.new ≡ inputs_of self.entry }
    {
        for (i, &v) in self.vars.iter().enumerate() {
            held[i] = self.values[usize::from(v)];
        }
    }

    // How many places hold z.
    pub fn places(self, z: i32) -> usize
        ensures { result ≡ Formula.places z (inputs_of self.entry) }
    {
        let mut n = 0;
        for &v in self.vars {
            n += one_if(self.values[usize::from(v)] == z);
        }
        n
    }

    // Whether some input is blank.
    pub fn any_blank(self) -> bool
        ensures { result ≡ some_blank (inputs_of self.entry) }
    {
        0 < self.places(BLANK)
    }

    // The result of a formula, or blank if some input is.
    pub fn unless_blank(self, res: i32) -> i32
        ensures { result ≡ unless_blank (λ _. res) (inputs_of self.entry) }
    {
        if self.any_blank() { BLANK } else { res }
    }
}

// 1 for a place that passes.
// Stays: `usize::from` alone is no plainer, since it says of its result that it is the byte of a `bool`, and the definitions count by `cond`.
pub fn one_if(passes: bool) -> usize
    ensures { result ≡ cond passes 1 0 }
{
    usize::from(passes)
}
