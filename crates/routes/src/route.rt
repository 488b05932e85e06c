// The three routes, by name and by number.
ghost use Rattle.std.specs.Prelude.{◌≡◌};
ghost use Rattle.paper.specs.Calls.{route_of};
ghost use Rattle.routes.specs.Numbered.{route_meant};

// Along the order, from what is asked, or from what is asked over the marks of what moved.
#[derive(Clone, Copy)]
pub enum Route {
    InputToOutput,
    OutputToInput,
    MarkGuided,
}

impl Route {
    // The route of that number. What is not 1, 2 or 3 is refused before, so the last arm is route 3.
    pub fn of_number(number: u32) -> Route
        ensures { route_meant result ≡ route_of number }
    {
        match number {
            1 => Route::InputToOutput,
            2 => Route::OutputToInput,
            _ => Route::MarkGuided,
        }
    }
}
