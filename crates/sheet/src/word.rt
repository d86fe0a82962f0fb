// Numbers as bytes, low byte first: the fields of a header, and the numbers of lines and forms.
ghost use Rattle.std.specs.Prelude.{◌≡◌, ℕ, ◌+◌, ◌*◌, ◌≤◌, List, length, refl};
ghost use Rattle.std.specs.List.{flat_map};
ghost use Rattle.memory.specs.Over.{over};
ghost use Rattle.sheet.specs.Numbers.{field_at, number_at, field_bytes, number_bytes};

/// The unsigned number of two bytes that begins at the byte `at`.
pub(crate) fn field(bytes: &[u8], at: usize) -> usize
    requires { at + 2 ≤ length bytes.now }
    ensures { result ≡ field_at bytes.now at }
{
    u16::from_le_bytes([bytes[at], bytes[at + 1]]) as usize
}

/// The signed number of four bytes that begins at the byte `at`.
pub(crate) fn number(bytes: &[u8], at: usize) -> i32
    requires { at + 4 ≤ length bytes.now }
    ensures { result ≡ number_at bytes.now at }
{
    i32::from_le_bytes([bytes[at], bytes[at + 1], bytes[at + 2], bytes[at + 3]])
}

/// A number that is written as `N` bytes.
pub(crate) trait Word<const N: usize>: Copy {
    ghost bytes_of: { Self → List ℕ };

    /// Its bytes, low byte first.
    fn to_bytes(self) -> [u8; N]
        ensures { result ≡ bytes_of self };

    ghost sized: { (x : Self) → length (bytes_of x) ≡ N };
}

impl Word<2> for u16 {
    ghost bytes_of = { field_bytes };

    ghost sized = { λ _. refl };

    fn to_bytes(self) -> [u8; 2] {
        self.to_le_bytes()
    }
}

impl Word<4> for i32 {
    ghost bytes_of = { number_bytes };

    ghost sized = { λ _. refl };

    fn to_bytes(self) -> [u8; 4] {
        self.to_le_bytes()
    }
}

/// Writes words over `memory`, one after another, from the byte `at` on.
pub(crate) fn put_words<const N: usize, W: Word<N>>(memory: &mut [u8], at: usize, words: &[W])
    requires { at + N * length words.now ≤ length memory.old }
    ensures { memory.new ≡ over at (flat_map W.bytes_of words.now) memory.old }
{
    for (k, word) in words.iter().enumerate() {
        let byte = at + N * k;
        memory[byte..byte + N].copy_from_slice(&word.to_bytes());
    }
}
