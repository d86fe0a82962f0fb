// Counting with remainders by any modulus.
ghost use Rattle.std.specs.Prelude.{◌≡◌, ◌+◌, ◌-◌, ◌*◌, ◌%◌, ◌<◌, ◌≤◌};
ghost use Rattle.integers.specs.Divisors.{gcd};
ghost use Rattle.algebra.specs.Remainder.{whole_r};

/// A number to take remainders by, so small that the product of two remainders fits in 32 bits.
#[derive(Clone, Copy)]
pub(crate) struct Modulus {
    by: u32,
    ghost large: { 1 < by },
    ghost small: { by ≤ 65536 },
}

impl Modulus {
    /// The modulus of REST.
    pub(crate) const REST: Modulus = Modulus { by: 9_973 };

    /// The remainder of a number below twice the modulus, which needs no division.
    fn carried(self, n: u32) -> u32
        requires { n < self.by + self.by }
        ensures { result ≡ n % self.by }
    {
        if n < self.by { n } else { n - self.by }
    }

    /// The remainder of `a + b`.
    pub(crate) fn sum(self, a: u32, b: u32) -> u32
        requires left { a < self.by }
        requires right { b < self.by }
        ensures { result ≡ (a + b) % self.by }
    {
        self.carried(a + b)
    }

    /// The remainder of `a - b`, also where that is negative.
    pub(crate) fn difference(self, a: u32, b: u32) -> u32
        requires left { a < self.by }
        requires right { b < self.by }
        ensures { result ≡ (a + (self.by - b)) % self.by }
    {
        self.carried(a + (self.by - b))
    }

    /// The remainder of `a * b`; `a` may be the modulus itself.
    pub(crate) fn product(self, a: u32, b: u32) -> u32
        requires left { a ≤ self.by }
        requires right { b < self.by }
        ensures { result ≡ a * b % self.by }
    {
        a * b % self.by
    }

    /// The number that `a` has to be multiplied by for a product that leaves 1.
    pub(crate) fn reciprocal(self, a: u32) -> u32
        requires left { a < self.by }
        requires coprime { gcd a self.by ≡ 1 }
        ensures below { result < self.by }
        ensures inverse { a * result % self.by ≡ 1 }
    {
        // Euclid's rule; `high` and `low` stay `a` times their factors, but for multiples of the modulus
        let mut high = self.by;
        let mut low = a;
        let mut high_factor = 0;
        let mut low_factor = 1;
        while low > 0 {
            let taken = self.product(high / low, low_factor);
            let rest_factor = self.difference(high_factor, taken);
            (high, low) = (low, high % low);
            (high_factor, low_factor) = (low_factor, rest_factor);
        }
        // `high` is now what `a` and the modulus have in common, which is 1
        high_factor
    }

    /// The remainder of a whole number, also of a negative one.
    pub(crate) fn whole(self, whole: i32) -> u32
        ensures { result ≡ (whole_r self.by self.large whole).value }
    {
        let size = whole.unsigned_abs() % self.by;
        if whole < 0 {
            self.difference(0, size)
        } else {
            size
        }
    }
}
