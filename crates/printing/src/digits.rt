// Writes numbers in decimal digits over lent memory.
ghost use Rattle.std.specs.Prelude.{◌≡◌, ◌+◌, ◌≤◌, length};
ghost use Rattle.memory.specs.Over.{over};
ghost use Rattle.texts.specs.Texts.{padded};

/// Writes the last `count` digits of a number, from the byte `at` on; zeros in front are kept.
pub(crate) fn put_padded(memory: &mut [u8], at: usize, value: u32, count: usize)
    requires { at + count ≤ length memory.old }
    ensures { memory.new ≡ over at (padded count value) memory.old }
{
    let mut rest = value;
    let mut left = count;
    // from the last digit on, since that is the one that a division yields
    while left > 0 {
        left -= 1;
        memory[at + left] = b'0' + (rest % 10) as u8;
        rest /= 10;
    }
}
