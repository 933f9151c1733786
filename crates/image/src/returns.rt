// The return counts of the modules, kind 15: when one is right. They are read and written as the other counters are.
ghost use Rattle.std.specs.Prelude.{◌≡◌};
ghost use Rattle.image.specs.Returns.{return_fits};

use words::bits::pick;

// 0, or below q and of a module outside the view, by one comparison.
pub fn return_fits(q: u32, present: bool, count: u32) -> bool
    ensures { result ≡ return_fits q present count }
{
    count < pick(present, 1, pick(q == 0, 1, q))
}
