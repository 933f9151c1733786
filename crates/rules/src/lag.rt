// Rule 1: whether a step votes on the words of the round before.
ghost use Rattle.std.specs.Prelude.{◌≡◌, ◌≤◌};
ghost use Rattle.rules.specs.Lag.{skewed};

// Whether some read place is not n.
pub fn is_skewed(n: usize, places: [u32; 16]) -> bool
    requires { n ≤ 16 }
    ensures { result ≡ skewed n places }
{
    let last = n as u32;
    let mut some = false;
    for j in 0..n {
        some = some | (places[j] != last);
    }
    some
}
