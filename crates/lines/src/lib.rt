// The drill runner's line reader and line writer, over bytes. A line is read byte by byte into a state by value, so that it
// may cross chunks of any size and an overlong line takes no memory. specs/Lines.antt says what a line is and what is printed.
// Bytes are not counted: eight numbers take at most 87, so the limit of 90 turns no line away (proofs/Texts.antt).
#![tactic(auto)]

ghost use Rattle.std.specs.Prelude.{◌*◌, ◌+◌, ◌<◌, ◌≤◌, drop, length, [], ◌++◌, ◌∷◌, ◌≡◌};
ghost use Rattle.lines.specs.Lines.{Put, bad_text, decimal, print_room, printed};
ghost use Rattle.lines.specs.Scan.{byte_step, digit_step, is_fresh, line_of_scan, next_of, progress_of, push, space_step, start_of};
ghost use Rattle.lines.specs.Scan.{spoilt};

use rules::Call;

// The room that a printed line may take, as specs/Lines.antt has it.
pub const PRINT_ROOM: usize = 64;

// The paper's numbers, likewise.
const NUMBER_LIMIT: u64 = 4294967295;

const FIELDS: u32 = 8;

// A line that is no call: the number N that `line N bad` prints. The text is `write_bad`'s to write, and proved there.
#[derive(Clone, Copy, Debug, PartialEq, Eq)]
pub struct BadLine {
    pub line: u64,
}

// The line being read: its number, whether it is bad, the fields before the present one and their numbers, the last of them
// in `high`, and the present number so far, none before its first digit.
#[derive(Clone, Copy, Debug, PartialEq, Eq)]
pub struct Scan {
    pub line: u64,
    pub bad: bool,
    pub fields: u32,
    pub call: Call,
    pub number: Option<u32>,
}

// What reading a chunk from a place on finds: a line's end, with the state for the next line and the place behind the
// newline; or none, with the state at the chunk's end. No Option or Result: each way bears a state, and neither is a failure.
#[derive(Clone, Copy, Debug, PartialEq, Eq)]
pub enum Progress {
    Ended(Result<Call, BadLine>, Scan, usize),
    More(Scan),
}

// The numbers move one field up, and v comes last: after eight, each is in its own field.
fn with_number(x: Call, v: u32) -> Call
    ensures { result ≡ push x v }
{
    Call {
        service: x.caller,
        caller: x.target,
        target: x.side,
        side: x.mode,
        mode: x.ticks,
        ticks: x.word,
        word: x.high,
        high: v,
    }
}

impl Scan {
    // The state before any byte of line number `line`; a runner starts with line 1.
    pub fn start(line: u64) -> Scan
        ensures { result ≡ start_of line }
    {
        let call = Call {
            service: 0,
            caller: 0,
            target: 0,
            side: 0,
            mode: 0,
            ticks: 0,
            word: 0,
            high: 0,
        };
        Scan {
            line,
            bad: false,
            fields: 0,
            call,
            number: None,
        }
    }

    // The line is bad, whatever follows.
    fn spoilt(self) -> Scan
        ensures { result ≡ spoilt self }
    {
        Scan { bad: true, ..self }
    }

    // The digit d: it may not stand behind a leading 0, nor take the number over the limit.
    #[tactic(auto, unfolding(crate::specs::Scan::digit_step))]
    fn digit(self, d: u8) -> Scan
        requires { d ≤ 9 }
        ensures { result ≡ digit_step self d }
    {
        let value = match self.number {
            None => d as u64,
            Some(0) => return self.spoilt(),
            Some(v) => v as u64 * 10 + d as u64,
        };
        if value <= NUMBER_LIMIT {
            Scan {
                number: Some(value as u32),
                ..self
            }
        } else {
            self.spoilt()
        }
    }

    // A space: it ends a number that is not the last.
    #[tactic(auto, unfolding(crate::specs::Scan::space_step))]
    fn space(self) -> Scan
        ensures { result ≡ space_step self }
    {
        match self.number {
            Some(v) if self.fields < FIELDS - 1 => Scan {
                fields: self.fields + 1,
                call: with_number(self.call, v),
                number: None,
                ..self
            },
            _ => self.spoilt(),
        }
    }

    // One byte more of the line, which is no newline.
    #[tactic(auto, unfolding(crate::specs::Scan::byte_step))]
    fn step(self, byte: u8) -> Scan
        ensures { result ≡ byte_step self byte }
    {
        if self.bad {
            return self;
        }
        match byte {
            b'0'..=b'9' => self.digit(byte - b'0'),
            b' ' => self.space(),
            _ => self.spoilt(),
        }
    }

    // The line, at its end.
    #[tactic(auto, unfolding(crate::specs::Scan::line_of_scan))]
    pub fn finish(self) -> Result<Call, BadLine>
        ensures { result ≡ line_of_scan self }
    {
        match self.number {
            Some(v) if !self.bad && self.fields == FIELDS - 1 => Ok(with_number(self.call, v)),
            _ => Err(BadLine { line: self.line }),
        }
    }

    // The state before the next line. Line 18,446,744,073,709,551,615 is followed by lines of the same number.
    #[tactic(auto, unfolding(crate::specs::Scan::next_of))]
    fn next(self) -> Scan
        ensures { result ≡ next_of self }
    {
        Scan::start(self.line.saturating_add(1))
    }

    // No byte of the line is read: at the end of the input there is no further line.
    #[tactic(auto, unfolding(crate::specs::Scan::is_fresh))]
    pub fn fresh(self) -> bool
        ensures { result ≡ is_fresh self }
    {
        !self.bad && self.fields == 0 && self.number.is_none()
    }
}

// Reads `buf` from `from` on, up to the next newline or the end.
pub fn next_line(buf: &[u8], from: usize, scan: Scan) -> Progress
    ensures { result ≡ progress_of from scan (drop from buf.now) }
{
    let mut s = scan;
    for i in from..buf.len() {
        if buf[i] == b'\n' {
            return Progress::Ended(s.finish(), s.next(), i + 1);
        }
        s = s.step(buf[i]);
    }
    Progress::More(s)
}

// Writes n in decimal at `at`, and answers the place behind it.
fn put_decimal(out: &mut [u8], at: usize, n: u64) -> usize
    requires { at + length (decimal n) ≤ length out.old }
    ensures { Put out.old at (decimal n) result out.new }
{
    if n < 10 {
        out[at] = b'0' + n as u8;
        return at + 1;
    }
    let end = put_decimal(out, at, n / 10);
    out[end] = b'0' + (n % 10) as u8;
    end + 1
}

// Writes n in decimal and then the byte `after`.
fn put_number(out: &mut [u8], at: usize, n: u32, after: u8) -> usize
    requires { at + length (decimal n) < length out.old }
    ensures { Put out.old at (decimal n ++ after ∷ []) result out.new }
{
    let end = put_decimal(out, at, n as u64);
    out[end] = after;
    end + 1
}

// Writes bytes.
fn put_bytes(out: &mut [u8], at: usize, bytes: &[u8]) -> usize
    requires { at + length bytes.now ≤ length out.old }
    ensures { Put out.old at bytes.now result out.new }
{
    let end = at + bytes.len();
    out[at..end].copy_from_slice(bytes);
    end
}

// Writes the line of an answered call, newline and all, at `at`, and answers the place behind it.
pub fn write_reply(
    out: &mut [u8],
    at: usize,
    refusal: u32,
    answer: u32,
    next: u32,
    ahead: u32,
) -> usize
    requires { at + print_room ≤ length out.old }
    ensures { Put out.old at (printed (refusal ∷ answer ∷ next ∷ ahead ∷ [])) result out.new }
{
    write_numbers(out, at, &[refusal, answer, next, ahead])
}

// How many digits n has.
fn decimal_length(n: u32) -> usize
    ensures { result ≡ length (decimal n) }
{
    let mut left = n;
    let mut digits = 1;
    // counts the digits of a value that shrinks: no index, and nothing to iterate over
    while 9 < left {
        left /= 10;
        digits += 1;
    }
    digits
}

// How many bytes the line of these numbers has, newline and all.
pub fn numbers_length(ns: &[u32]) -> usize
    requires in_bounds { 1 ≤ length ns.now }
    requires ns_len_bound { length ns.now ≤ 65535 }
    ensures value { result ≡ length (printed ns.now) }
    ensures upper_bound { result ≤ length ns.now * 11 }
{
    let mut bytes = 0;
    for &n in ns {
        bytes += decimal_length(n) + 1;
    }
    bytes
}

// Writes the line of these numbers, newline and all, at `at`, and answers the place behind it.
pub fn write_numbers(out: &mut [u8], at: usize, ns: &[u32]) -> usize
    requires in_bounds { 1 ≤ length ns.now }
    requires ns_in_bounds { at + length (printed ns.now) ≤ length out.old }
    ensures { Put out.old at (printed ns.now) result out.new }
{
    let mut end = at;
    for (k, &n) in ns.iter().enumerate() {
        let after = if k + 1 < ns.len() { b' ' } else { b'\n' };
        end = put_number(out, end, n, after);
    }
    end
}

// Writes `line N bad` and a newline at `at`, and answers the place behind it.
pub fn write_bad(out: &mut [u8], at: usize, line: u64) -> usize
    requires { at + print_room ≤ length out.old }
    ensures { Put out.old at (bad_text line) result out.new }
{
    let a = put_bytes(out, at, b"line ");
    let b = put_decimal(out, a, line);
    put_bytes(out, b, b" bad\n")
}
