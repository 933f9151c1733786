// Arrays of 16 doubles, of which the first n are in use.
ghost use Rattle.std.specs.Prelude.{◌≡◌};
ghost use Rattle.doubles.specs.Array.{clear_doubles};

use crate::{bits_of, is_double};

// Whether the entries of a are doubles, as those of code always are, and 0.0 from n on.
pub fn clear_doubles(n: usize, a: [f64; 16]) -> bool
    ensures { result ≡ clear_doubles n a }
{
    let mut good = true;
    for j in 0..16 {
        let x = a[j];
        good = good & (is_double(x) & ((j < n) | (bits_of(x) == 0)));
    }
    good
}
