// A vector without one of its bits.
ghost use Rattle.std.specs.Prelude.{◌≡◌, ◌<◌};
ghost use Rattle.words.specs.Mask.{without as without_of};

// v with bit j cleared.
pub fn without(v: u32, j: usize) -> u32
    requires { j < 32 }
    ensures { result ≡ without_of v j }
{
    v & !(1 << j)
}
