// What the promises of `first_column` and `write_digits_from` suffice for: the figure of 7 in two columns, from the promises alone.
ghost use Rattle.std.specs.Prelude.{◌≡◌};

use crate::{first_column, write_digits_from};

// The byte before the 7 is a space.
pub fn byte_before_seven() -> u8
    ensures answer { result ≡ 32 }
{
    let mut field = [b'.'; 2];
    let first = first_column(7, 2);
    write_digits_from(&mut field, first, 7);
    field[0]
}
