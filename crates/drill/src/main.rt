// The drill runner: lines from standard input to its end, each answered on one table, which starts as all zeros, or as the bytes
// that stand on a descriptor of their own. What is printed is the crate runner's to say; here are the reading and the writing, in
// large blocks. A write that fails ends the program; behind the last line the table's bytes are left on another descriptor.
#![tactic(auto)]

ghost use Rattle.std.specs.Prelude.{◌*◌, ◌+◌, ◌≤◌, IfOk, length, ◌≡◌};
ghost use Rattle.bytes4.specs.Bytes.{Packed};
ghost use Rattle.drill.specs.Tables.{Begun};
ghost use Rattle.drill.specs.Turns.{Behind};
ghost use Rattle.lines.specs.Lines.{print_room};
ghost use Rattle.lines.specs.Scan.{last_of};
ghost use Rattle.runner.specs.Runner.{table_through, zeros};

use lines::Scan;
use runner::Answered;
use std::io;
use std::io::{ErrorKind, Write};

// "744 words in all, 2,976 bytes": a table of edition 2
const BYTES: usize = 4 * records::TABLE_SIZE_TWO;

// The launcher's descriptors, by the names that they are opened by: the table to leave, and the table to begin with. It closes what
// is not asked for, and then there is nothing to open.
const LEAVE: &str = "/dev/fd/3";

const BEGIN: &str = "/dev/fd/4";

// What is read or written at once.
const BLOCK: usize = 65536;

// Answers a chunk, and writes the buffer out each time that it is full. The state behind the chunk, and the place behind the text
// that waits to be written.
fn answer_chunk(
    rt: &HostRuntime,
    t: &mut [u32],
    out: &mut [u8],
    at: usize,
    chunk: &[u8],
    scan: Scan,
) -> io::Result<(Scan, usize)>
    requires { at + print_room ≤ length out.old }
    ensures { IfOk result (λ turn. Behind scan chunk.now t.old turn.0 turn.1 t.new out.new) }
{
    let mut s = scan;
    let mut end = at;
    let mut i = 0;
    // each turn goes on where the runner answers that the buffer was full: no index goes up by one
    loop {
        match runner::answer_lines(t, out, end, chunk, i, s) {
            Answered::Drained(next, place) => return Ok((next, place)),
            Answered::Full(next, place, from) => {
                rt.write_all(&out[..place])?;
                s = next;
                i = from;
                end = 0;
            }
        }
    }
}

// The last line, where no newline ends it, and what waits to be written.
fn finish(rt: &HostRuntime, t: &mut [u32], out: &mut [u8], at: usize, scan: Scan) -> io::Result<()>
    requires { at + print_room ≤ length out.old }
    ensures { t.new ≡ table_through t.old (last_of scan) }
{
    let end = runner::answer_last(t, out, at, scan);
    rt.write_all(&out[..end])
}

// The whole input. A proved loop has to end, and nothing says that the input does: there are more turns than any run takes.
fn run(rt: &HostRuntime, t: &mut [u32], input: &mut [u8], out: &mut [u8]) -> io::Result<()>
    requires { print_room ≤ length out.old }
{
    let mut scan = Scan::start(1);
    let mut at = 0;
    for _ in 0..u64::MAX {
        let n = streams::read_some(&mut rt.stdin(), input);
        if n == 0 {
            return finish(rt, t, out, at, scan);
        }
        (scan, at) = answer_chunk(rt, t, out, at, &input[..n], scan)?;
    }
    Err(io::Error::from(ErrorKind::Other))
}

// The table to begin with: that of the bytes that came, where they are all of a table, and zeros otherwise.
fn begin(t: &mut [u32], came: &[u8])
    requires { t.old ≡ zeros }
    ensures { Begun came.now t.new }
{
    if came.len() == 4 * t.len() {
        bytes4::unpack(came, t);
    }
}

// Leaves the table as bytes. Nothing waits for them where the descriptor is closed.
fn leave(rt: &HostRuntime, t: &[u32], bytes: &mut [u8])
    requires { length bytes.old ≡ 4 * length t.now }
    ensures { Packed t.now bytes.new }
{
    bytes4::pack(t, bytes);
    if let Some(mut left) = streams::to_write(rt, LEAVE) {
        let _ = left.write_all(&*bytes);
    }
}

#[tactic(auto, unfolding(runner::specs::Runner::zeros))]
fn main(rt: HostRuntime) {
    let mut table = [0u32; records::TABLE_SIZE_TWO];
    let mut bytes = [0u8; BYTES];
    let mut input = [0u8; BLOCK];
    let mut out = [0u8; BLOCK];
    let came = streams::read_named(&rt, BEGIN, &mut bytes);
    begin(&mut table, &bytes[..came]);
    if run(&rt, &mut table, &mut input, &mut out).is_ok() {
        leave(&rt, &table, &mut bytes);
    }
}
