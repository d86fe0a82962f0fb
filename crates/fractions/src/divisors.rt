// Divisors of words.
ghost use Rattle.std.specs.Prelude.{◌≡◌};
ghost use Rattle.std.specs.Int.{IsGcd};
ghost use Rattle.integers.specs.Divisors.{gcd as greatest};

/// The greatest common divisor. Where one of the two is 1, the commonest case, no division is needed.
pub(crate) fn gcd(a: u32, b: u32) -> u32
    ensures value { result ≡ greatest a b }
    ensures meaning { IsGcd a b result }
{
    if a == 1 || b == 1 {
        return 1;
    }
    let mut last = a;
    let mut next = b;
    while next != 0 {
        let rest = last % next;
        last = next;
        next = rest;
    }
    last
}
