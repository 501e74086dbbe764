// M-106: two tables of one edition compared, the differing places written into a lent buffer of words. Two passes over the
// tables: how many places differ, and, where their entries fit, the entries themselves. The tables are only read.
// Not here: when a table is well formed (crate wellformed).
#![tactic(auto)]

ghost use Rattle.std.specs.Prelude.{◌*◌, ◌≤◌, length, ◌≡◌};
ghost use Rattle.differences.specs.Differences.{Compares, entries, entry_words, table_refusal};
ghost use Rattle.rules.specs.Reply.{refusal_number};
ghost use Rattle.std.proofs.lemmas.List.Edits.{sets};

use rules::Refusal;

// "each as place (from 0), old word, new word": how many words an entry has.
const ENTRY_SIZE: usize = 3;

// Refusals 1 and 2 of one table, in the edition that fits its length.
pub fn refusal_of(t: &[u32]) -> Result<(), Refusal>
    ensures { refusal_number result ≡ table_refusal t.now 0 }
{
    refusals::for_table(t, records::task_size(t.len()))
}

// How many places differ.
fn count_entries(first: &[u32], second: &[u32]) -> usize
    requires { length first.now ≡ length second.now }
    ensures value { result ≡ length (entries first.now second.now) }
    ensures upper_bound { result ≤ length first.now }
{
    let mut count = 0;
    // by the place: with one way out the loop is wide. `zip` with `filter` and `count` has two, and a comparison took twice the time.
    for place in 0..first.len() {
        if first[place] != second[place] {
            count += 1;
        }
    }
    count
}

// The entries, one behind the other. The bound keeps a place a word of 32 bits.
fn write_entries(first: &[u32], second: &[u32], places: &mut [u32])
    requires first_len { length first.now ≡ length second.now }
    requires first_len_bound { length first.now ≤ 65535 }
    requires room { 3 * length (entries first.now second.now) ≤ length places.old }
    ensures { places.new
        ≡ sets places.old 0 (entry_words (entries first.now second.now)) }
{
    let mut at = 0;
    // by the place, which is an entry's first word: `zip` would give a pair within a pair, and no word fewer
    for (place, old) in first.iter().enumerate() {
        let new = second[place];
        if *old != new {
            // word by word: three copied at once go by way of the stack, and each copy waits for the three that were just put there
            places[at] = place as u32;
            places[at + 1] = *old;
            places[at + 2] = new;
            at += ENTRY_SIZE;
        }
    }
}

// The differing places of two tables, as entries in `places`, and how many there are. "A refusal writes nothing": 13 stands before 8, and
// no entry is written before both.
pub fn compare(first: &[u32], second: &[u32], places: &mut [u32]) -> Result<u32, Refusal>
    ensures { Compares first.now second.now places.old result places.new }
{
    refusal_of(first)?;
    refusal_of(second)?;
    rules::need(first.len() == second.len(), Refusal::OtherEdition)?;
    let count = count_entries(first, second);
    rules::need(ENTRY_SIZE * count <= places.len(), Refusal::ShortBuffer)?;
    write_entries(first, second, places);
    Ok(count as u32)
}
