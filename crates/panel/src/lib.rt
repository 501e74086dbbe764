// The C edge: "A host program in C hands the table as 2,400 bytes, words little-endian, and the call's numbers"; a table of edition 2
// has 2,976 (M-105). Thin over the word kernel. include/hub_kernel.h has the same six functions for C.
#![tactic(auto)]

ghost use Rattle.bytes4.specs.Bytes.{bytes_of, words_from};
ghost use Rattle.panel.specs.Edge.{Called, ComparedBytes, ListedBytes, call_of, compare_numbers_of, edge_down, edge_summary, edge_up, listing_numbers_of, numbers_of, summary_numbers_of};
ghost use Rattle.rules.specs.Editions.{Moved, moved_down, moved_up};
ghost use Rattle.std.specs.Prelude.{◌*◌, length, true, ◌≡◌};
ghost use Rattle.tablebytes.specs.TableBytes.{fits};

use rules::{Call, Refusal, Reply, Summary};
use tablebytes::{BYTES, BYTES_TWO};

#[repr(C)]
#[derive(Clone, Copy)]
pub struct HubKernelReply {
    pub refusal: u32,
    pub answer: u32,
    pub next: u32,
    pub ahead: u32,
}

#[repr(C)]
#[derive(Clone, Copy)]
pub struct HubKernelSummaryReply {
    pub refusal: u32,
    pub mask: u32,
    pub count: u32,
}

#[repr(C)]
#[derive(Clone, Copy)]
pub struct HubKernelListingReply {
    pub refusal: u32,
    pub length: u32,
}

#[repr(C)]
#[derive(Clone, Copy)]
pub struct HubKernelCompareReply {
    pub refusal: u32,
    pub count: u32,
}

// The paper's numbers of a reply.
impl From<Reply> for HubKernelReply {
    ghost from_gives = { λ r n. n ≡ numbers_of r };

    fn from(r: Reply) -> HubKernelReply {
        HubKernelReply {
            refusal: rules::refusal_number(r.answer),
            answer: rules::answer_number(r.answer),
            next: r.next,
            ahead: r.ahead,
        }
    }
}

// "Refused .. then both are 0."
impl From<Result<Summary, Refusal>> for HubKernelSummaryReply {
    ghost from_gives = { λ s n. n ≡ summary_numbers_of s };

    fn from(s: Result<Summary, Refusal>) -> HubKernelSummaryReply {
        match s {
            Ok(s) => HubKernelSummaryReply {
                refusal: 0,
                mask: s.mask,
                count: s.count,
            },
            Err(e) => HubKernelSummaryReply {
                refusal: e.number(),
                mask: 0,
                count: 0,
            },
        }
    }
}

// "The length given back is 0" of a refused listing.
impl From<Result<u32, Refusal>> for HubKernelListingReply {
    ghost from_gives = { λ r n. n ≡ listing_numbers_of r };

    fn from(r: Result<u32, Refusal>) -> HubKernelListingReply {
        match r {
            Ok(length) => HubKernelListingReply { refusal: 0, length },
            Err(e) => HubKernelListingReply {
                refusal: e.number(),
                length: 0,
            },
        }
    }
}

// "A refusal .. reports 0."
impl From<Result<u32, Refusal>> for HubKernelCompareReply {
    ghost from_gives = { λ r n. n ≡ compare_numbers_of r };

    fn from(r: Result<u32, Refusal>) -> HubKernelCompareReply {
        match r {
            Ok(count) => HubKernelCompareReply { refusal: 0, count },
            Err(e) => HubKernelCompareReply {
                refusal: e.number(),
                count: 0,
            },
        }
    }
}

// One call on a table of N words: the bytes are unpacked, the kernel called, and packed again unless the call is refused. Each edition
// has an array of its own, so that the compiler knows its length where the bytes are unpacked.
fn call_sized<const N: usize>(table: &mut [u8], c: Call) -> HubKernelReply
    requires table_len { length table.old ≡ 4 * N }
    requires fits { fits table.old ≡ true }
    ensures { Called table.old c result table.new }
{
    let mut words = [0u32; N];
    bytes4::unpack(&*table, &mut words);
    let reply = kernel::call(&mut words, c);
    if reply.answer.is_err() {
        return HubKernelReply::from(reply);
    }
    bytes4::pack(&words, table);
    HubKernelReply::from(reply)
}

// One call, by its eight numbers.
#[unsafe(no_mangle)]
pub extern "C" fn hub_kernel_call(
    table: &mut [u8],
    service: u32,
    caller: u32,
    target: u32,
    side: u32,
    mode: u32,
    ticks: u32,
    word: u32,
    high: u32,
) -> HubKernelReply
    ensures { Called table.old (call_of service caller target side mode ticks word high) result table.new }
{
    let c = Call {
        service,
        caller,
        target,
        side,
        mode,
        ticks,
        word,
        high,
    };
    if table.len() == BYTES {
        return call_sized::<{ records::TABLE_SIZE }>(table, c);
    }
    if table.len() == BYTES_TWO {
        return call_sized::<{ records::TABLE_SIZE_TWO }>(table, c);
    }
    HubKernelReply {
        refusal: Refusal::WrongLength.number(),
        answer: 0,
        next: 0,
        ahead: 0,
    }
}

// The summary of a table of N words.
fn summary_sized<const N: usize>(table: &[u8], hub: u32) -> HubKernelSummaryReply
    requires table_len { length table.now ≡ 4 * N }
    requires fits { fits table.now ≡ true }
    ensures { result ≡ edge_summary table.now hub }
{
    let mut words = [0u32; N];
    bytes4::unpack(table, &mut words);
    HubKernelSummaryReply::from(kernel::summary(&words, hub))
}

// The hub summary of the table.
#[unsafe(no_mangle)]
pub extern "C" fn hub_kernel_summary(table: &[u8], hub: u32) -> HubKernelSummaryReply
    ensures { result ≡ edge_summary table.now hub }
{
    if table.len() == BYTES {
        return summary_sized::<{ records::TABLE_SIZE }>(table, hub);
    }
    if table.len() == BYTES_TWO {
        return summary_sized::<{ records::TABLE_SIZE_TWO }>(table, hub);
    }
    HubKernelSummaryReply::from(Err(Refusal::WrongLength))
}

// The listing of a table of N words.
fn listing_sized<const N: usize>(table: &[u8], text: &mut [u8]) -> HubKernelListingReply
    requires table_len { length table.now ≡ 4 * N }
    requires fits { fits table.now ≡ true }
    ensures { ListedBytes table.now text.old result text.new }
{
    let mut words = [0u32; N];
    bytes4::unpack(table, &mut words);
    HubKernelListingReply::from(listing::list(&words, text))
}

// The listing of the table, written into a lent buffer.
#[unsafe(no_mangle)]
pub extern "C" fn hub_kernel_listing(table: &[u8], text: &mut [u8]) -> HubKernelListingReply
    ensures { ListedBytes table.now text.old result text.new }
{
    if table.len() == BYTES {
        return listing_sized::<{ records::TABLE_SIZE }>(table, text);
    }
    if table.len() == BYTES_TWO {
        return listing_sized::<{ records::TABLE_SIZE_TWO }>(table, text);
    }
    HubKernelListingReply::from(Err(Refusal::WrongLength))
}

// A table moved from edition 1 to edition 2, into a second lent slice. The refusal, 0 if it is done. The two moves stay two functions: C has
// both, and each hands on another promise; one body for both would take the move as a closure, with that promise as its clause.
#[unsafe(no_mangle)]
pub extern "C" fn hub_kernel_move_up(from: &[u8], to: &mut [u8]) -> u32
    ensures { Moved (edge_up from.now (length to.old)) (bytes_of (moved_up (words_from from.now)))
        to.old result to.new }
{
    if from.len() != BYTES {
        return Refusal::WrongLength.number();
    }
    if to.len() != BYTES_TWO {
        return Refusal::WrongLength.number();
    }
    let mut source = [0u32; records::TABLE_SIZE];
    let mut destination = [0u32; records::TABLE_SIZE_TWO];
    bytes4::unpack(from, &mut source);
    if let Err(refusal) = editions::move_up(&source, &mut destination) {
        return refusal.number();
    }
    bytes4::pack(&destination, to);
    0
}

// A table moved back, from edition 2 to edition 1.
#[unsafe(no_mangle)]
pub extern "C" fn hub_kernel_move_down(from: &[u8], to: &mut [u8]) -> u32
    ensures { Moved (edge_down from.now (length to.old)) (bytes_of (moved_down (words_from from.now)))
        to.old result to.new }
{
    if from.len() != BYTES_TWO {
        return Refusal::WrongLength.number();
    }
    if to.len() != BYTES {
        return Refusal::WrongLength.number();
    }
    let mut source = [0u32; records::TABLE_SIZE_TWO];
    let mut destination = [0u32; records::TABLE_SIZE];
    bytes4::unpack(from, &mut source);
    if let Err(refusal) = editions::move_down(&source, &mut destination) {
        return refusal.number();
    }
    bytes4::pack(&destination, to);
    0
}

// M-106: the differing places of two tables, into a lent buffer of words.
#[unsafe(no_mangle)]
pub extern "C" fn hub_kernel_compare(
    first: &[u8],
    second: &[u8],
    places: &mut [u32],
) -> HubKernelCompareReply
    ensures { ComparedBytes first.now second.now places.old result places.new }
{
    let mut old = [0u32; records::TABLE_SIZE_TWO];
    let mut new = [0u32; records::TABLE_SIZE_TWO];
    let n = tablebytes::table_words(first, &mut old);
    let m = tablebytes::table_words(second, &mut new);
    HubKernelCompareReply::from(differences::compare(&old[..n], &new[..m], places))
}
