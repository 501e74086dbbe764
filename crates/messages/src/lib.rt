// A message in a lent slice of words: one number, in one word or in two, the low word first. How many words it has is a
// parameter; what lies past the end of the slice reads as 0 and is not written.
// Not here: where a message stands in a table, and what it means.
#![tactic(auto)]

ghost use Rattle.std.specs.Prelude.{◌*◌, ◌+◌, ◌<◌, ◌≡◌};
ghost use Rattle.messages.specs.Messages.{Message, message_words};
ghost use Rattle.std.proofs.lemmas.List.Edits.{sets};

// How many numbers a word has.
const WORDS: u64 = 4294967296;

// A message of two words, as one number.
pub fn joined(low: u32, high: u32) -> u64
    ensures { result ≡ low + 4294967296 * high }
{
    u64::from(low) + WORDS * u64::from(high)
}

// The message of w words at word p.
pub fn message(t: &[u32], p: usize, w: usize) -> u64
    requires { p < 18446744073709551615 }
    ensures { Message w t.now p result }
{
    let low = lists::word(t, p);
    if 1 < w {
        joined(low, lists::word(t, p + 1))
    } else {
        u64::from(low)
    }
}

// A message in w words from word p on.
pub fn set_message(t: &mut [u32], p: usize, w: usize, m: u64)
    requires { p < 18446744073709551615 }
    ensures { t.new ≡ sets t.old p (message_words w m) }
{
    lists::set_word(t, p, (m % WORDS) as u32);
    if 1 < w {
        lists::set_word(t, p + 1, (m / WORDS) as u32);
    }
}
