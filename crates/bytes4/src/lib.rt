// "words little-endian": a slice of words of 32 bits from a slice of bytes and back, four bytes to a word, the least first.
// Slices of any length. Not here: how many bytes a table has.
#![tactic(auto)]

ghost use Rattle.std.specs.Prelude.{◌*◌, length, ◌≡◌};
ghost use Rattle.bytes4.specs.Bytes.{Packed, Unpacked};

// Every word of t from the bytes of b.
pub fn unpack(b: &[u8], t: &mut [u32])
    requires { length b.now ≡ 4 * length t.old }
    ensures { Unpacked b.now t.new }
{
    let (words, _) = b.as_chunks::<4>();
    for (i, word) in t.iter_mut().enumerate() {
        *word = u32::from_le_bytes(words[i]);
    }
}

// Every byte of b from the words of t.
pub fn pack(t: &[u32], b: &mut [u8])
    requires { length b.old ≡ 4 * length t.now }
    ensures { Packed t.now b.new }
{
    for (i, word) in t.iter().enumerate() {
        b[4 * i..4 * i + 4].copy_from_slice(&word.to_le_bytes());
    }
}
