// What the row that makes a variable has in a column.
ghost use Rattle.std.specs.Prelude.{◌≡◌, ◌≤◌, length};
ghost use Rattle.order.specs.Numbering.{of_maker};

// What the row that makes a variable has in a column; 0 if none makes it.
// Stays: the maker is a number, 0 for none, since `Makers` says the row `by` so.
pub fn of_maker(maker: usize, column: &[u16]) -> u16
    requires { maker ≤ length column.now }
    ensures { result ≡ of_maker maker column.now }
{
    if maker == 0 {
        return 0;
    }
    column[maker - 1]
}
