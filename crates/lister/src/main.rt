// The listing of the table whose bytes stand on standard input, on standard output. It sets no exit status: the
// refusal and a length go to a descriptor that the launcher reads, behind the listing, and nothing goes there where a write of
// the listing has failed.
#![tactic(auto)]

ghost use Rattle.lister.specs.Lister.{BytesListed};

use rules::Refusal;
use std::io::Write;

// "2,976 bytes" of edition 2, and one byte more, which shows that there are too many.
const INPUT: usize = tablebytes::BYTES_TWO + 1;

// The longest listing: a Blank line, 16 tasks and 16 hubs.
const TEXT: usize = 704;

// The launcher's descriptor, by the name that it is opened by.
const VERDICT: &str = "/dev/fd/3";

// Lists the table that the bytes are. Other bytes are no table's, and their words are none, which is a wrong length.
fn list_bytes(bytes: &[u8], text: &mut [u8]) -> Result<u32, Refusal>
    ensures { BytesListed bytes.now text.old result text.new }
{
    let mut words = [0u32; records::TABLE_SIZE_TWO];
    let n = tablebytes::table_words(bytes, &mut words);
    listing::list(&words[..n], text)
}

// A line of two numbers: the refusal, and of how many bytes: a listing's, or, where their number is refused, those that came.
// Nothing waits for it where the descriptor is closed.
fn verdict(rt: &HostRuntime, listed: Result<u32, Refusal>, came: usize) {
    let refusal = rules::refusal_number(listed);
    let length = match listed {
        Err(Refusal::WrongLength) => came,
        _ => rules::number_given(listed) as usize,
    };
    if let Some(mut told) = streams::to_write(rt, VERDICT) {
        let _ = writeln!(told, "{refusal} {length}");
    }
}

fn main(rt: HostRuntime) {
    let mut input = [0u8; INPUT];
    let mut text = [0u8; TEXT];
    let came = streams::read_full(&mut rt.stdin(), &mut input);
    let listed = list_bytes(&input[..came], &mut text);
    let length = rules::number_given(listed) as usize;
    if rt.write_all(&text[..length]).is_ok() {
        verdict(&rt, listed, came);
    }
}
