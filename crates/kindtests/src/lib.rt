// Tests of the kinds of number, at every limit. What each call has to give was counted by hand.

#![tactic(auto)]

#[cfg(test)]
mod tests {
    use fractions::Fraction;
    use kinds::Kind;
    use kinds::refusal::{Reason, Refusal};
    use kinds::whole::Whole;
    use printing::Print;
    use remainders::Remainder;
    use std::process::Abort;
    use std::test::Fail;

    const FILL: u8 = b'.';

    // The largest numerator, and the largest denominator.
    const MOST: i32 = 2_147_483_647;

    // A numerator and a denominator.
    type Parts = (i32, i32);

    // A whole number of any size, from thirds that can be taken.
    fn whole<K: Kind>(z: i32) -> Result<K, Refusal> {
        let third = z / 3;
        let part = K::take(third)?;
        let rest = K::take(z - third - third)?;
        Ok(part.sum(part)?.sum(rest)?)
    }

    fn fraction(of: Parts) -> Result<Fraction, Refusal> {
        let top: Fraction = whole(of.0)?;
        top.quotient(whole(of.1)?)
    }

    // The result has these parts.
    fn is<E>(rt: &impl Abort, res: Result<Fraction, E>, parts: Parts) -> Result<(), Fail>
    where
        Fail: From<E>,
    {
        let value = res?;
        assert_eq!(rt; value.numerator(), parts.0);
        assert_eq!(rt; value.denominator() as i64, parts.1 as i64);
        Ok(())
    }

    // The result is this remainder.
    fn leaves<E>(rt: &impl Abort, res: Result<Remainder, E>, value: u32) -> Result<(), Fail>
    where
        Fail: From<E>,
    {
        assert_eq!(rt; res?.value(), value);
        Ok(())
    }

    // The result does not fit.
    fn large(rt: &impl Abort, res: Result<Fraction, Reason>) {
        assert_eq!(rt; res, Err(Reason::TooLarge));
        assert_eq!(rt; res.err().map(|reason| reason.number()), Some(14));
    }

    // The quotient does not fit.
    fn large_quotient(rt: &impl Abort, res: Result<Fraction, Refusal>) {
        assert_eq!(rt; res, Err(Refusal::Misfit(Reason::TooLarge)));
        assert_eq!(rt; res.err().map(|refusal| refusal.number()), Some(14));
    }

    // The divisor is zero.
    fn no_quotient<K: Kind>(rt: &impl Abort, res: Result<K, Refusal>) {
        let refusal = res.err();
        assert_eq!(rt; refusal, Some(Refusal::ZeroDivisor));
        assert_eq!(rt; refusal.map(|refusal| refusal.number()), Some(12));
    }

    // The whole number is out of range.
    fn out_of_range<K: Kind>(rt: &impl Abort, whole: i32) {
        let refusal = K::take(whole).err();
        assert_eq!(rt; refusal, Some(Refusal::Number { position: 1 }));
        assert_eq!(rt; refusal.map(|refusal| refusal.number()), Some(7));
        assert_eq!(rt; refusal.and_then(|refusal| refusal.position()), Some(1));
    }

    // The same at the limits of every kind.
    fn takes_in_range<K: Kind>(rt: &impl Abort) -> Result<(), Fail> {
        for whole in [1_000_000_001, -1_000_000_001, MOST, i32::MIN] {
            out_of_range::<K>(rt, whole);
        }
        let sum = K::take(400_000_000)?.sum(K::take(600_000_000)?)?;
        assert!(rt; sum.alike(K::take(1_000_000_000)?));
        Ok(())
    }

    #[test]
    fn takes_fractions(rt: HostRuntime) -> Result<(), Fail> {
        takes_in_range::<Fraction>(&rt)?;
        for whole in [0, 1, -1, 1_000_000_000, -1_000_000_000] {
            is(&rt, Fraction::take(whole), (whole, 1))?;
            assert_eq!(rt; Fraction::take(whole), fraction((whole, 1)));
        }
        let sum = Fraction::take(400_000_000)?.sum(Fraction::take(600_000_000)?);
        is(&rt, sum, (1_000_000_000, 1))
    }

    #[test]
    fn takes_remainders(rt: HostRuntime) -> Result<(), Fail> {
        takes_in_range::<Remainder>(&rt)?;
        for (whole, value) in [
            (-1_000_000_000, 2_683),
            (1_000_000_000, 7_290),
            (-1, 9_972),
            (9_973, 0),
        ] {
            leaves(&rt, Remainder::take(whole), value)?;
            assert_eq!(rt; Remainder::take(whole), Remainder::take(value as i32));
        }
        let sum = Remainder::take(400_000_000)?.sum(Remainder::take(600_000_000)?);
        leaves(&rt, sum, 7_290)
    }

    #[test]
    fn whole_numbers(rt: HostRuntime) -> Result<(), Fail> {
        assert_eq!(rt; Whole::try_from(1_000_000_000)?.number, 1_000_000_000);
        assert_eq!(rt; Whole::try_from(-1_000_000_000)?.number, -1_000_000_000);
        let refused = Err(Refusal::Number { position: 1 });
        assert_eq!(rt; Whole::try_from(1_000_000_001), refused);
        assert_eq!(rt; Whole::try_from(-1_000_000_001), refused);
        Ok(())
    }

    #[test]
    fn constants(rt: HostRuntime) {
        assert!(rt; Fraction::mark_letters() == *b"FRAC");
        assert!(rt; Remainder::mark_letters() == *b"REST");
        assert_eq!(rt; Fraction::longest_text(), 22);
        assert_eq!(rt; Remainder::longest_text(), 4);
    }

    #[test]
    fn sums(rt: HostRuntime) -> Result<(), Fail> {
        for (a, b, sum) in [
            ((MOST - 1, 1), (1, 1), (MOST, 1)),
            ((1 - MOST, 1), (-1, 1), (-MOST, 1)),
            ((MOST - 2, 2), (1, 1), (MOST, 2)),
            ((0, 1), (MOST, 1), (MOST, 1)),
            ((MOST, 1), (0, 1), (MOST, 1)),
            ((1, MOST), (-3, MOST), (-2, MOST)),
            ((1, 2), (1, 1_073_741_823), (1_073_741_825, 2_147_483_646)),
            ((1, 6), (1, 10), (4, 15)),
            ((MOST, 2), (-MOST, 2), (0, 1)),
            ((MOST, 2), (MOST, 2), (MOST, 1)),
        ] {
            is(&rt, fraction(a)?.sum(fraction(b)?), sum)?;
        }
        Ok(())
    }

    // No sum or difference has the denominator 2^31: the denominators that are stored divide by 2 at most 30 times. The nearest
    // that is refused has 2^31 + 1, which is 3 times 715,827,883.
    #[test]
    fn large_sums(rt: HostRuntime) -> Result<(), Fail> {
        for (a, b) in [
            ((MOST, 1), (1, 1)),
            ((-MOST, 1), (-1, 1)),
            ((MOST, 3), (1, 3)),
            ((1, 3), (1, 715_827_883)),
            ((-1, 3), (-1, 715_827_883)),
            ((1, MOST), (1, MOST - 1)),
        ] {
            large(&rt, fraction(a)?.sum(fraction(b)?));
        }
        Ok(())
    }

    #[test]
    fn differences(rt: HostRuntime) -> Result<(), Fail> {
        for (a, b, difference) in [
            ((1 - MOST, 1), (1, 1), (-MOST, 1)),
            ((MOST - 1, 1), (-1, 1), (MOST, 1)),
            ((2 - MOST, 2), (1, 1), (-MOST, 2)),
            ((0, 1), (MOST, 1), (-MOST, 1)),
            ((-MOST, 1), (0, 1), (-MOST, 1)),
            ((1, MOST), (1, MOST), (0, 1)),
            ((1, MOST), (3, MOST), (-2, MOST)),
            ((1, 2), (1, 1_073_741_823), (1_073_741_821, 2_147_483_646)),
            ((1, 3), (1, 2), (-1, 6)),
            ((MOST, 2), (-MOST, 2), (MOST, 1)),
            ((MOST, 2), (MOST, 2), (0, 1)),
        ] {
            is(&rt, fraction(a)?.difference(fraction(b)?), difference)?;
        }
        Ok(())
    }

    #[test]
    fn large_differences(rt: HostRuntime) -> Result<(), Fail> {
        for (a, b) in [
            ((-MOST, 1), (1, 1)),
            ((MOST, 1), (-1, 1)),
            ((-MOST, 3), (1, 3)),
            ((1, 3), (1, 715_827_883)),
            ((-1, 3), (1, 715_827_883)),
        ] {
            large(&rt, fraction(a)?.difference(fraction(b)?));
        }
        Ok(())
    }

    #[test]
    fn products(rt: HostRuntime) -> Result<(), Fail> {
        for (a, b, product) in [
            ((1, 46_340), (1, 46_340), (1, 2_147_395_600)),
            ((-46_340, 1), (46_340, 1), (-2_147_395_600, 1)),
            ((1, 32_767), (1, 65_538), (1, 2_147_483_646)),
            ((MOST, 2), (-2, MOST), (-1, 1)),
            ((-MOST, 2), (-2, MOST), (1, 1)),
            ((MOST, MOST - 1), (MOST - 1, MOST), (1, 1)),
            ((0, 1), (-1, MOST), (0, 1)),
            ((-1, MOST), (0, 1), (0, 1)),
            ((MOST, 1), (0, 1), (0, 1)),
            ((MOST, 2), (2, 1), (MOST, 1)),
            ((MOST, 2), (-2, 1), (-MOST, 1)),
            ((2, MOST), (1, 2), (1, MOST)),
        ] {
            is(&rt, fraction(a)?.product(fraction(b)?), product)?;
        }
        Ok(())
    }

    #[test]
    fn large_products(rt: HostRuntime) -> Result<(), Fail> {
        for (a, b) in [
            ((1, 46_341), (1, 46_341)),
            ((-46_341, 1), (46_341, 1)),
            ((1, MOST), (1, 2)),
            ((MOST, 1), (2, 1)),
            ((65_536, 1), (32_768, 1)),
            ((-65_536, 1), (32_768, 1)),
            ((65_536, 3), (32_768, 5)),
            ((1, 65_536), (1, 32_768)),
            ((-1, 65_536), (1, 32_768)),
        ] {
            large(&rt, fraction(a)?.product(fraction(b)?));
        }
        Ok(())
    }

    #[test]
    fn quotients(rt: HostRuntime) -> Result<(), Fail> {
        for (a, b, quotient) in [
            ((0, 1), (-MOST, 1), (0, 1)),
            ((1, 1), (-MOST, 1), (-1, MOST)),
            ((1, 1), (1, MOST), (MOST, 1)),
            ((1, 1), (-1, MOST), (-MOST, 1)),
            ((MOST, 1), (-1, 1), (-MOST, 1)),
            ((-MOST, 2), (-MOST, 2), (1, 1)),
            ((MOST, 2), (1, 2), (MOST, 1)),
            ((-MOST, 2), (1, 2), (-MOST, 1)),
            ((MOST, 2), (-1, 2), (-MOST, 1)),
        ] {
            is(&rt, fraction(a)?.quotient(fraction(b)?), quotient)?;
        }
        Ok(())
    }

    #[test]
    fn large_quotients(rt: HostRuntime) -> Result<(), Fail> {
        for (a, b) in [
            ((1, 2), (MOST, 1)),
            ((2, 1), (1, MOST)),
            ((65_536, 1), (1, 32_768)),
            ((-65_536, 1), (1, 32_768)),
            ((65_536, 1), (-1, 32_768)),
            ((1, 32_768), (65_536, 1)),
            ((-1, 32_768), (65_536, 1)),
        ] {
            large_quotient(&rt, fraction(a)?.quotient(fraction(b)?));
        }
        Ok(())
    }

    #[test]
    fn quotients_by_zero(rt: HostRuntime) -> Result<(), Fail> {
        let zero = fraction((0, 1))?;
        for a in [(0, 1), (MOST, 1), (-MOST, 1), (1, MOST)] {
            no_quotient(&rt, fraction(a)?.quotient(zero));
        }
        Ok(())
    }

    #[test]
    fn compares(rt: HostRuntime) -> Result<(), Fail> {
        let third = fraction((1, 3))?;
        assert!(rt; third.alike(fraction((-2, -6))?));
        assert!(rt; !third.alike(fraction((-1, 3))?));
        assert!(rt; fraction((0, -5))?.is_zero());
        assert!(rt; !fraction((1, MOST))?.is_zero());
        Ok(())
    }

    #[test]
    fn weighs(rt: HostRuntime) -> Result<(), Fail> {
        for (a, b, heavier) in [
            ((-1, 2), (1, 3), true),
            ((1, 3), (-1, 3), false),
            ((-1, 3), (1, 3), false),
            ((MOST, MOST - 1), (MOST - 1, MOST - 2), false),
            ((MOST - 1, MOST - 2), (-MOST, MOST - 1), true),
            ((1, MOST), (0, 1), true),
            ((0, 1), (0, 1), false),
        ] {
            assert_eq!(rt; fraction(a)?.heavier(fraction(b)?), heavier);
        }
        Ok(())
    }

    #[test]
    fn counts_remainders(rt: HostRuntime) -> Result<(), Fail> {
        let zero = Remainder::take(0)?;
        let one = Remainder::take(1)?;
        let last = Remainder::take(9_972)?;
        leaves(&rt, last.sum(one), 0)?;
        leaves(&rt, last.sum(last), 9_971)?;
        leaves(&rt, zero.difference(last), 1)?;
        leaves(&rt, zero.difference(one), 9_972)?;
        leaves(&rt, last.difference(last), 0)?;
        leaves(&rt, last.product(last), 1)?;
        leaves(&rt, last.product(zero), 0)
    }

    #[test]
    fn divides_remainders(rt: HostRuntime) -> Result<(), Fail> {
        let zero = Remainder::take(0)?;
        let one = Remainder::take(1)?;
        let three = Remainder::take(3)?;
        let last = Remainder::take(9_972)?;
        leaves(&rt, one.quotient(three), 6_649)?;
        leaves(&rt, last.quotient(three), 3_324)?;
        leaves(&rt, one.quotient(last), 9_972)?;
        for a in [zero, one, last] {
            no_quotient(&rt, a.quotient(zero));
        }
        Ok(())
    }

    #[test]
    fn compares_remainders(rt: HostRuntime) -> Result<(), Fail> {
        let zero = Remainder::take(0)?;
        let one = Remainder::take(1)?;
        let last = Remainder::take(9_972)?;
        assert!(rt; zero.is_zero());
        assert!(rt; !last.is_zero());
        assert!(rt; last.alike(Remainder::take(-1)?));
        assert!(rt; !last.alike(one));
        assert!(rt; one.heavier(zero));
        assert!(rt; !one.heavier(last));
        assert!(rt; !zero.heavier(one));
        assert!(rt; !zero.heavier(zero));
        Ok(())
    }

    // Two values, held together.
    #[derive(Clone, Copy)]
    struct Pair {
        a: Remainder,
        b: Remainder,
    }

    fn total(pair: Pair) -> Result<Remainder, Reason> {
        pair.a.sum(pair.b)
    }

    fn named(name: &str, whole: i32) -> Result<(&str, Remainder), Refusal> {
        Ok((name, Remainder::take(whole)?))
    }

    // Values may stand in a caller's own types, which are copied as others are.
    #[test]
    fn values_are_held_by_callers(rt: HostRuntime) -> Result<(), Fail> {
        let pair = Pair {
            a: Remainder::take(9_972)?,
            b: Remainder::take(3)?,
        };
        leaves(&rt, total(pair), 2)?;
        leaves(&rt, total(pair), 2)?;
        let (name, value) = named("steam", -1)?;
        assert!(rt; name == "steam");
        assert_eq!(rt; value.value(), 9_972);
        Ok(())
    }

    // Memory that is too short, full of `FILL`, is refused and stays as it was.
    fn too_short<K: Print>(rt: &impl Abort, value: K, memory: &mut [u8]) {
        let res = value.print(memory);
        assert_eq!(rt; res, Err(Refusal::Memory));
        assert_eq!(rt; res.err().map(|refusal| refusal.number()), Some(6));
        assert!(rt; memory.iter().all(|&byte| byte == FILL));
    }

    #[test]
    fn prints_fractions(rt: HostRuntime) -> Result<(), Fail> {
        let longest = fraction((-MOST, MOST - 1))?;
        let zero = fraction((0, 1))?;
        too_short(&rt, longest, &mut [FILL; 21]);
        too_short(&rt, zero, &mut [FILL; 21]);
        too_short(&rt, zero, &mut [FILL; 0]);
        let mut exact = [FILL; 22];
        assert_eq!(rt; longest.print(&mut exact), Ok(22));
        assert!(rt; &exact == b"-2147483647/2147483646");
        exact = [FILL; 22];
        assert_eq!(rt; zero.print(&mut exact), Ok(1));
        assert!(rt; &exact == b"0.....................");
        let mut long = [FILL; 23];
        assert_eq!(rt; fraction((8, 6))?.print(&mut long), Ok(3));
        assert!(rt; &long == b"4/3....................");
        long = [FILL; 23];
        assert_eq!(rt; fraction((-3, 1))?.print(&mut long), Ok(2));
        assert!(rt; &long == b"-3.....................");
        assert!(rt; fraction((-5, 6))?.text().as_str() == "-5/6");
        Ok(())
    }

    #[test]
    fn prints_remainders(rt: HostRuntime) -> Result<(), Fail> {
        let value = Remainder::take(42)?;
        too_short(&rt, value, &mut [FILL; 3]);
        too_short(&rt, value, &mut [FILL; 0]);
        let mut long = [FILL; 5];
        assert_eq!(rt; value.print(&mut long), Ok(4));
        assert!(rt; &long == b"0042.");
        let mut exact = [FILL; 4];
        assert_eq!(rt; Remainder::take(9_972)?.print(&mut exact), Ok(4));
        assert!(rt; &exact == b"9972");
        assert_eq!(rt; Remainder::take(0)?.print(&mut exact), Ok(4));
        assert!(rt; &exact == b"0000");
        assert!(rt; value.text().as_str() == "0042");
        Ok(())
    }
}
