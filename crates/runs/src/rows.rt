// Rows of their own, worked out over the inputs that they are handed.
use formulas::formula_value;

// What the two formulas of a window give.
#[derive(Drop)]
pub struct Given {
    pub departures: i32,
    pub last: i32,
}

// OVER of two inputs.
pub fn over(a: i32, b: i32) -> i32 {
    let coefs = [1i16, 1];
    let vars = [0u16, 1];
    let values = [a, b];
    formula_value(7, 0, 0, 2, &coefs, &vars, &values)
}

// DEPARTURES and LAST of a window.
pub fn window(start: i32, end: i32, headway: i32) -> Given {
    let coefs = [1i16, 1, 1];
    let vars = [0u16, 1, 2];
    let values = [start, end, headway];
    let departures = formula_value(8, 0, 0, 3, &coefs, &vars, &values);
    let last = formula_value(9, 0, 0, 3, &coefs, &vars, &values);
    Given {
        departures: departures,
        last: last,
    }
}
