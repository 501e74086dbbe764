// Two tables side by side: one on standard input, the other on a descriptor of its own. On standard output the rows, and behind them
// M-106's entries, a line each. It sets no exit status: the refusals and the counts go to a descriptor that the
// launcher reads, behind all of that, and nothing goes there where a write has failed.
#![tactic(auto)]

ghost use Rattle.comparer.specs.Comparer.{entry_lines};
ghost use Rattle.lines.specs.Lines.{printed};
ghost use Rattle.texts.specs.Texts.{Wrote};
ghost use Rattle.std.specs.Prelude.{[], ◌∷◌};

use rules::Refusal;
use std::fs::File;
use std::io;
use std::io::Write;
use texts::Writer;

// "2,976 bytes" of edition 2, and one byte more, which shows that there are too many.
const INPUT: usize = 4 * records::TABLE_SIZE_TWO + 1;

// Three words for each place that may differ.
const PLACES: usize = 3 * records::TABLE_SIZE_TWO;

// More room than the rows take, or the entries.
const TEXT: usize = 65536;

// The launcher's descriptors, by the names that they are opened by: the verdict, and the second table.
const VERDICT: &str = "/dev/fd/3";

const SECOND: &str = "/dev/fd/4";

// A line of three numbers.
fn put_entry(out: &mut Writer, place: u32, old: u32, new: u32)
    ensures { Wrote out.old (printed (place ∷ old ∷ new ∷ [])) out.new }
{
    out.number(place);
    out.between(b" ", old, b" ");
    out.number(new);
    out.byte(b'\n');
}

// The entries, three words each, as lines.
fn put_entries(out: &mut Writer, places: &[u32], count: u32)
    ensures { Wrote out.old (entry_lines places.now 0 count) out.new }
{
    for k in 0..count {
        let p = 3 * k as usize;
        let place = lists::word(places, p);
        let old = lists::word(places, p + 1);
        let new = lists::word(places, p + 2);
        put_entry(out, place, old, new);
    }
}

// A number of the verdict and the byte behind it, by a `write!` of its own: the numbers behind one that couldn't be written are tried
// all the same.
fn tell(told: &mut File, number: u64, after: &str) {
    let _ = write!(told, "{number}{after}");
}

// The verdict: each table's own refusal, the comparison's, how many words differ, how many bytes came of each table. Nothing waits
// for it where the descriptor is closed.
fn verdict(
    rt: &HostRuntime,
    first: Result<(), Refusal>,
    second: Result<(), Refusal>,
    compared: Result<u32, Refusal>,
    came: usize,
    other: usize,
) {
    let first = rules::refusal_number(first);
    let second = rules::refusal_number(second);
    let refusal = rules::refusal_number(compared);
    let count = rules::number_given(compared);
    if let Some(mut told) = streams::to_write(rt, VERDICT) {
        tell(&mut told, u64::from(first), " ");
        tell(&mut told, u64::from(second), " ");
        tell(&mut told, u64::from(refusal), " ");
        tell(&mut told, u64::from(count), " ");
        tell(&mut told, came as u64, " ");
        tell(&mut told, other as u64, "\n");
    }
}

// The rows on standard output: none of tables that are refused.
fn write_rows(rt: &HostRuntime, a: &[u32], b: &[u32], text: &mut [u8]) -> io::Result<()> {
    match sidebyside::show(a, b, text) {
        Ok(shown) => {
            let end = shown.length as usize;
            rt.write_all(&text[..end.min(text.len())])
        }
        Err(_) => Ok(()),
    }
}

// The entries behind them, likewise.
fn write_entries(rt: &HostRuntime, places: &[u32], count: u32, text: &mut [u8]) -> io::Result<()> {
    let mut out = Writer::new(text);
    put_entries(&mut out, places, count);
    let end = out.end();
    rt.write_all(&text[..end.min(text.len())])
}

// What is to be said of two tables, of which so many bytes stood on the descriptors.
fn compare(rt: &HostRuntime, a: &[u32], b: &[u32], came: usize, other: usize) -> io::Result<()> {
    let mut text = [0u8; TEXT];
    let mut places = [0u32; PLACES];
    write_rows(rt, a, b, &mut text)?;
    let compared = differences::compare(a, b, &mut places);
    write_entries(rt, &places, rules::number_given(compared), &mut text)?;
    let first = differences::refusal_of(a);
    let second = differences::refusal_of(b);
    verdict(rt, first, second, compared, came, other);
    Ok(())
}

fn main(rt: HostRuntime) {
    let mut first = [0u8; INPUT];
    let mut second = [0u8; INPUT];
    let came = streams::read_full(&mut rt.stdin(), &mut first);
    let other = streams::read_named(&rt, SECOND, &mut second);
    let mut old = [0u32; records::TABLE_SIZE_TWO];
    let mut new = [0u32; records::TABLE_SIZE_TWO];
    let n = tablebytes::table_words(&first[..came], &mut old);
    let m = tablebytes::table_words(&second[..other], &mut new);
    let _ = compare(&rt, &old[..n], &new[..m], came, other);
}
