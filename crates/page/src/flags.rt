// Flags: vectors of 32 bits that are joined, cleared and compared bit by bit. Each operator has a function, whose contract says what becomes of each
// bit: the operators at the calls would be no plainer, and each call would need that proof.
ghost use Rattle.std.specs.Prelude.{◌≡◌};
ghost use Rattle.page.specs.Flags.{joined as joined_of, cleared as cleared_of, shared as shared_of};

// The bits of u and those of v.
pub fn joined(u: u32, v: u32) -> u32
    ensures { result ≡ joined_of u v }
{
    u | v
}

// The bits of u that are not in v.
pub fn cleared(u: u32, v: u32) -> u32
    ensures { result ≡ cleared_of u v }
{
    u & !v
}

// Whether u and v share a set bit.
pub fn shared(u: u32, v: u32) -> bool
    ensures { result ≡ shared_of u v }
{
    u & v != 0
}
