// Departure boards: from the windows of one trip all its departures in time order. How many a window has is what build leaves of a model of that window.
#![tactic(auto)]

mod boards;
mod trips;

pub use boards::list_departures;
