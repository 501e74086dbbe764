// M-100: the set-up of a panel as text, written into a lent buffer. Two passes over the lines: how long they are, and, where
// they fit, the lines themselves. The table is only read.
// Not here: what a line's text is (crate lines).
#![tactic(auto)]

ghost use Rattle.std.specs.Prelude.{◌+◌, ◌<◌, ◌≤◌, length, ◌≡◌};
ghost use Rattle.lines.specs.Lines.{Put};
ghost use Rattle.listing.specs.Listing.{ListedFrom, ListedIn, line_at, lines_at, text_of_lines};
ghost use Rattle.rules.proofs.Layouts.{Laid};
ghost use Rattle.rules.specs.Table.{Layout};

use records::{HubNo, TaskSize};
use rules::Refusal;

// Line k: the Blank line, then the tasks, n of them, then the hubs.
fn line_at(t: &[u32], ts: TaskSize, n: usize, k: usize) -> [u32; 8]
    requires k_bound { k ≤ 65535 }
    ensures { result ≡ line_at ts.words t.now n k }
{
    if k == 0 {
        return [rules::BLANK, 0, 0, 0, 0, 0, 0, 0];
    }
    if k <= n {
        let priority = records::field(t, records::TASKS_AT, ts.words, k - 1, records::PRIORITY);
        return [rules::ADD_TASK, 0, priority, 0, 0, 0, 0, 0];
    }
    let h = records::hub(t, records::hubs_at(ts.words), HubNo(k - 1 - n));
    [rules::ADD_HUB, 0, h.kind, 0, 0, h.limit, h.start, 0]
}

// How long the listing is, where n tasks and m hubs are in use.
fn measure(t: &[u32], ts: TaskSize, n: usize, m: usize) -> usize
    requires n_bound { n ≤ 16 }
    requires m_bound { m ≤ 16 }
    ensures value { result ≡ length (text_of_lines (lines_at ts.words t.now n m)) }
    ensures upper_bound { result ≤ 2904 }
{
    let mut bytes = 0;
    // a chained `sum` would need a bound of its own for what it adds up; here each turn's is at hand
    for k in 0..1 + n + m {
        let line = line_at(t, ts, n, k);
        bytes += lines::numbers_length(&line);
    }
    bytes
}

// The lines, one behind the other.
fn write_lines(t: &[u32], ts: TaskSize, n: usize, m: usize, text: &mut [u8])
    requires n_bound { n ≤ 16 }
    requires m_bound { m ≤ 16 }
    requires m_in_bounds { length (text_of_lines (lines_at ts.words t.now n m)) ≤ length text.old }
    ensures { Put text.old 0 (text_of_lines (lines_at ts.words t.now n m))
        (length (text_of_lines (lines_at ts.words t.now n m))) text.new }
{
    let mut at = 0;
    for done in 0..1 + n + m {
        let line = line_at(t, ts, n, done);
        at = lines::write_numbers(text, at, &line);
    }
}

// The listing of a table whose task records have ts words, and its length. Refused, "nothing is written".
fn list_in(t: &[u32], ts: TaskSize, text: &mut [u8]) -> Result<u32, Refusal>
    ensures { (L : Layout) → Laid ts.words L → ListedIn L t.now text.old result text.new }
{
    refusals::for_table(t, ts)?;
    let n = t[records::TASKS] as usize;
    let m = t[records::HUBS] as usize;
    let bytes = measure(t, ts, n, m);
    rules::need(bytes <= text.len(), Refusal::ShortBuffer)?;
    write_lines(t, ts, n, m, text);
    Ok(bytes as u32)
}

// The listing of a table of either edition: the one that fits its length.
pub fn list(t: &[u32], text: &mut [u8]) -> Result<u32, Refusal>
    ensures { ListedFrom t.now text.old result text.new }
{
    let ts = records::task_size(t.len());
    list_in(t, ts, text)
}
