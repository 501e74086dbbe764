// Two tables of one edition side by side, as text: each row (crate rows) with its text in either table and its mark (crate rowtexts), a
// line for each. The lines are specs/RowLines.antt.
// The rows are written into a buffer of our own first, so that a refusal leaves the caller's alone.
#![tactic(auto)]

ghost use Rattle.std.specs.Prelude.{◌<◌, ◌≤◌, length, ◌≡◌};
ghost use Rattle.differences.specs.Differences.{table_refusal};
ghost use Rattle.rows.specs.Rows.{row_number, rows};
ghost use Rattle.rows.specs.Views.{how_many_marked};
ghost use Rattle.rules.specs.Reply.{refusal_number};
ghost use Rattle.sidebyside.specs.RowLines.{line_of, row_of, rows_of};
ghost use Rattle.sidebyside.specs.Shows.{ShownAs, Shows, pair_refusal, runs_in, size_of};
ghost use Rattle.texts.specs.Texts.{Put, Wrote};

use records::TableView;
use rows::{Pair, Row, View};
use rules::Refusal;
use texts::Writer;

// How many bytes were written, and how many rows are marked.
#[derive(Clone, Copy, Debug, PartialEq, Eq)]
pub struct Shown {
    pub length: u32,
    pub marked: u32,
}

// More room than the rows of two tables take (proofs/Promise, `text_short`).
const ROOM: usize = 65536;

// The line of a row.
fn put_line(out: &mut Writer, tables: &Pair, row: Row)
    requires { row_number row < 16 }
    ensures { Wrote out.old (line_of tables.now row) out.new }
{
    rowtexts::put_mark(out, tables.marked(row));
    rowtexts::put_title(out, row);
    rowtexts::put_cell(out, &tables.left, row);
    out.byte(b'\t');
    rowtexts::put_cell(out, &tables.right, row);
    out.byte(b'\n');
}

// A row, where it is shown.
#[tactic(auto, unfolding(crate::specs::RowLines::row_text))]
fn put_row(out: &mut Writer, tables: &Pair, row: Row)
    requires { row_number row < 16 }
    ensures { Wrote out.old (row_of tables.now row) out.new }
{
    if tables.is_shown(row) {
        put_line(out, tables, row);
    }
}

// All rows.
fn put_rows(out: &mut Writer, tables: &Pair)
    ensures { Wrote out.old (rows_of tables.now rows) out.new }
{
    for k in 0..rows::ROWS {
        put_row(out, tables, rows::row_at(k));
    }
}

// All rows from a buffer's start on, and the place where they end.
fn rows_into(buffer: &mut [u8], tables: &Pair) -> usize
    ensures { Put buffer.old 0 (rows_of tables.now rows) result buffer.new }
{
    let mut out = Writer::new(buffer);
    put_rows(&mut out, tables);
    out.end()
}

// The tables' own refusals: 1 and 2 of the first, then of the second, then 13.
pub fn pair_refusal(a: &[u32], b: &[u32]) -> Result<(), Refusal>
    ensures { refusal_number result ≡ pair_refusal a.now b.now }
{
    differences::refusal_of(a)?;
    differences::refusal_of(b)?;
    rules::need(a.len() == b.len(), Refusal::OtherEdition)
}

// The rows of two tables. They are written into a buffer of our own first, which has room for all, so that a text without room leaves
// the caller's alone.
fn show_in(tables: &Pair, text: &mut [u8]) -> Result<Shown, Refusal>
    requires { length (rows_of tables.now rows) ≤ 65535 }
    ensures { ShownAs 0 (rows_of tables.now rows) (how_many_marked tables.now rows) text.old result text.new }
{
    let mut scratch = [0u8; ROOM];
    let end = rows_into(&mut scratch, tables);
    if text.len() < end {
        return Err(Refusal::ShortBuffer);
    }
    text[..end].copy_from_slice(&scratch[..end]);
    Ok(Shown {
        length: end as u32,
        marked: tables.count_marked(),
    })
}

// A well-formed table as the rows are handed it: who runs in it, and its keys.
fn view(words: &[u32]) -> View<'_>
    requires { table_refusal words.now 0 ≡ 0 }
    ensures words { result.words.now ≡ words.now }
    ensures ts { result.ts.words ≡ size_of words.now }
    ensures runs { result.runs ≡ runs_in words.now }
{
    let ts = records::task_size(words.len());
    View {
        words,
        ts,
        runs: refusals::next(words, ts),
        keys: inherit::keys(&TableView { words, ts }),
    }
}

// Two tables side by side: the rows' text, into `text`. "A refusal writes nothing."
pub fn show(a: &[u32], b: &[u32], text: &mut [u8]) -> Result<Shown, Refusal>
    ensures { Shows a.now b.now text.old result text.new }
{
    pair_refusal(a, b)?;
    let tables = Pair {
        left: view(a),
        right: view(b),
    };
    show_in(&tables, text)
}
