// The drill runner over slices: a line answered on a table, and the lines of a chunk of input answered into a buffer. It rests
// on the kernel's and the line reader's promises alone. specs/Runner.antt says what is printed; reading and writing are the
// program's (crate drill).
#![tactic(auto)]

ghost use Rattle.std.specs.Prelude.{◌+◌, ◌≤◌, length, [], ◌∷◌};
ghost use Rattle.lines.specs.Lines.{print_room};
ghost use Rattle.lines.specs.Scan.{last_of};
ghost use Rattle.runner.specs.Runner.{ChunkAnswered, Lines};

use lines::{BadLine, Progress, Scan};
use rules::Call;

// How far the lines of a chunk are answered: all that end in it, with the state behind the chunk and the place behind the
// text; or those before a place of the chunk, the last number, where the buffer has no room for another line. No Option or Result:
// each way bears a state, and neither is a failure.
#[derive(Clone, Copy, Debug, PartialEq, Eq)]
pub enum Answered {
    Drained(Scan, usize),
    Full(Scan, usize, usize),
}

// Calls the kernel and writes the reply's numbers.
fn answer_call(t: &mut [u32], out: &mut [u8], at: usize, call: Call) -> usize
    requires { at + print_room ≤ length out.old }
    ensures { Lines t.old (Ok call ∷ []) out.old at result t.new out.new }
{
    let reply = kernel::call(t, call);
    let answer = reply.answer;
    lines::write_reply(
        out,
        at,
        rules::refusal_number(answer),
        rules::answer_number(answer),
        reply.next,
        reply.ahead,
    )
}

// Answers one line: a bad one leaves the table alone. The place behind its text.
fn answer_line(t: &mut [u32], out: &mut [u8], at: usize, line: Result<Call, BadLine>) -> usize
    requires { at + print_room ≤ length out.old }
    ensures { Lines t.old (line ∷ []) out.old at result t.new out.new }
{
    match line {
        Ok(call) => answer_call(t, out, at, call),
        Err(bad) => lines::write_bad(out, at, bad.line),
    }
}

// Answers the last line of an input, where no newline ends it; there may be none.
#[tactic(auto, unfolding(lines::specs::Scan::last_of))]
pub fn answer_last(t: &mut [u32], out: &mut [u8], at: usize, scan: Scan) -> usize
    requires { at + print_room ≤ length out.old }
    ensures { Lines t.old (last_of scan) out.old at result t.new out.new }
{
    if scan.fresh() {
        return at;
    }
    answer_line(t, out, at, scan.finish())
}

// Answers the lines that end in a chunk from place `start` on, until the chunk is read or the buffer is full.
pub fn answer_lines(
    t: &mut [u32],
    out: &mut [u8],
    at: usize,
    chunk: &[u8],
    start: usize,
    scan: Scan,
) -> Answered
    requires { at + print_room ≤ length out.old }
    ensures { ChunkAnswered chunk.now start scan t.old out.old at result t.new out.new }
{
    let mut s = scan;
    let mut end = at;
    let mut i = start;
    // each turn goes on at the place that the reader answers: no index goes up by one
    loop {
        match lines::next_line(chunk, i, s) {
            Progress::Ended(line, next, place) => {
                end = answer_line(t, out, end, line);
                s = next;
                i = place;
                if out.len() - end < lines::PRINT_ROOM {
                    return Answered::Full(s, end, i);
                }
            }
            Progress::More(next) => return Answered::Drained(next, end),
        }
    }
}
