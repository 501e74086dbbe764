// A table's bytes: how many each edition's table has, and the words that they hold, into the front of an array.
// Not here: words from bytes and back, whatever their number (crate bytes4); what is done over the words.
#![tactic(auto)]

ghost use Rattle.rules.specs.Table.{size, two};
ghost use Rattle.tablebytes.specs.TableBytes.{InFront};
ghost use Rattle.std.specs.Prelude.{length, ◌≡◌};

// "the table as 2,400 bytes", and of edition 2 "2,976 bytes"
pub const BYTES: usize = 4 * records::TABLE_SIZE;

pub const BYTES_TWO: usize = 4 * records::TABLE_SIZE_TWO;

// The words of a table, into the front of `words`, and how many they are; none where the bytes are no table's.
pub fn table_words(table: &[u8], words: &mut [u32]) -> usize
    requires { length words.old ≡ size two }
    ensures { InFront table.now words.new result }
{
    match table.len() {
        BYTES => {
            bytes4::unpack(table, &mut words[..records::TABLE_SIZE]);
            records::TABLE_SIZE
        }
        BYTES_TWO => {
            bytes4::unpack(table, words);
            records::TABLE_SIZE_TWO
        }
        // no words, so that callers take what is in front as it is, and it is refused by the test of a table's length
        _ => 0,
    }
}
