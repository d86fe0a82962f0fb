// Tests of the sheet's writer, and of reading what it wrote.

#![tactic(auto)]

#[cfg(test)]
mod tests {
    use sheet::format::{Counts, FRAC, Mark};
    use sheet::reader::read;
    use sheet::refusal::Refusal;
    use sheet::writer::write;
    use std::process::Abort;
    use std::test::Fail;

    const FILL: u8 = 0xaa;

    const TWO_RATES: &[u8; 80] = b"FRAC\x02\0\x04\0\x02\0\x10\0\x40\0\x50\0\
        \x02\0\0\0\xff\xff\xff\xff\x03\0\0\0\x04\0\0\0\xfe\xff\xff\xff\x06\0\0\0\
        \x04\0\0\0\xfe\xff\xff\xff\x07\0\0\0\x01\0\0\0\x01\0\0\0\x01\0\0\0\
        \x01\0\0\0\0\0\0\0\x01\0\0\0\xfe\xff\xff\xff";

    const LINES: [i32; 12] = [2, -1, 3, 4, -2, 6, 4, -2, 7, 1, 1, 1];

    const FORMS: [i32; 4] = [1, 0, 1, -2];

    fn counts(unknowns: usize, lines: usize, forms: usize) -> Counts {
        Counts {
            unknowns,
            lines,
            forms,
        }
    }

    // Writes into 64 bytes, and passes where that is refused as said and the memory is untouched.
    fn refused(rt: &impl Abort, counts: Counts, lines: &[i32], forms: &[i32], why: Refusal) {
        let mut memory = [FILL; 64];
        assert_eq!(rt;
            write(Mark::Rest, counts, lines, forms, &mut memory),
            Err(why)
        );
        assert!(rt; memory == [FILL; 64]);
    }

    #[test]
    fn writes_the_example(rt: HostRuntime) -> Result<(), Fail> {
        let mut memory = [FILL; 83];
        let length = write(Mark::Frac, counts(2, 4, 2), &LINES, &FORMS, &mut memory)?;
        assert!(rt; length == 80);
        assert!(rt; &memory[0..80] == TWO_RATES.as_slice());
        assert!(rt; &memory[80..83] == [FILL; 3].as_slice());
        Ok(())
    }

    #[test]
    fn reads_back_what_it_wrote(rt: HostRuntime) -> Result<(), Fail> {
        let sheet = read(TWO_RATES)?;
        assert_eq!(rt; sheet.mark(), Mark::Frac);
        assert!(rt; sheet.mark().letters() == FRAC);
        assert_eq!(rt; sheet.counts(), counts(2, 4, 2));
        assert!(rt; sheet.line(3).ok_or("line")? == [1, 1, 1].as_slice());
        assert!(rt; sheet.line(4).is_none());
        assert!(rt; sheet.form(1).ok_or("form")? == [1, -2].as_slice());
        assert!(rt; sheet.form(2).is_none());
        assert!(rt; sheet.lines().count() == 4);
        assert!(rt; sheet.forms().nth(1).ok_or("form")? == [1, -2].as_slice());
        for line in sheet.lines() {
            assert!(rt; line.len() == 3);
        }
        Ok(())
    }

    #[test]
    fn refuses_counts(rt: HostRuntime) {
        refused(&rt, counts(0, 41, 0), &[], &[], Refusal::Count { byte: 4 });
        refused(&rt, counts(13, 0, 0), &[], &[], Refusal::Count { byte: 4 });
        refused(
            &rt,
            counts(12, 41, 41),
            &[],
            &[],
            Refusal::Count { byte: 6 },
        );
        refused(&rt, counts(1, 40, 41), &[], &[], Refusal::Count { byte: 8 });
    }

    #[test]
    fn refuses_lengths(rt: HostRuntime) {
        refused(&rt, counts(1, 1, 0), &[1], &[], Refusal::Length);
        refused(&rt, counts(1, 1, 0), &[1, 2, 3], &[], Refusal::Length);
        refused(&rt, counts(1, 0, 1), &[], &[], Refusal::Length);
        refused(&rt, counts(1, 0, 13), &[], &[0; 13], Refusal::Length);
        refused(&rt, counts(1, 1, 0), &[1_000_001], &[], Refusal::Length);
    }

    #[test]
    fn refuses_numbers(rt: HostRuntime) {
        let second = Refusal::Number {
            position: 2,
            byte: 32,
        };
        refused(
            &rt,
            counts(2, 2, 0),
            &[0, 0, 0, 0, 1_000_001, 0],
            &[],
            second,
        );
        let right = Refusal::Number {
            position: 2,
            byte: 20,
        };
        refused(
            &rt,
            counts(1, 1, 1),
            &[0, -1_000_000_001],
            &[i32::MIN],
            right,
        );
        let form = Refusal::Number {
            position: 1,
            byte: 28,
        };
        refused(
            &rt,
            counts(1, 1, 2),
            &[0, 1_000_000_000],
            &[1_000_000, -1_000_001],
            form,
        );
    }

    #[test]
    fn takes_memory_that_is_just_enough(rt: HostRuntime) {
        let mut memory = [FILL; 64];
        let form = counts(12, 0, 1);
        assert_eq!(rt;
            write(Mark::Rest, form, &[], &[0; 12], &mut memory[0..63]),
            Err(Refusal::Length)
        );
        assert!(rt; memory == [FILL; 64]);
        assert_eq!(rt; write(Mark::Rest, form, &[], &[0; 12], &mut memory), Ok(64));
        assert_eq!(rt;
            write(Mark::Rest, counts(12, 0, 0), &[], &[], &mut memory),
            Ok(16)
        );
    }

    #[test]
    fn shows_marks(rt: HostRuntime) -> Result<(), Fail> {
        assert!(rt; Mark::Frac.to_string(rt.alloc())?.as_str() == "FRAC");
        assert!(rt; Mark::Rest.to_string(rt.alloc())?.as_str() == "REST");
        Ok(())
    }

    #[test]
    fn writes_the_widest(rt: HostRuntime) -> Result<(), Fail> {
        let mut memory = [FILL; 4017];
        let length = write(
            Mark::Rest,
            counts(12, 40, 40),
            &[-7; 520],
            &[9; 480],
            &mut memory,
        )?;
        assert!(rt; length == 4016);
        assert!(rt; memory[4016] == FILL);
        let sheet = read(&memory[0..4016])?;
        assert!(rt; sheet.line(39).ok_or("line")? == [-7; 13].as_slice());
        assert!(rt; sheet.form(39).ok_or("form")? == [9; 12].as_slice());
        Ok(())
    }
}
