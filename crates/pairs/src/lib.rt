// Two tables as bytes: their rows, for a host in C. Thin: what is shown is crate sidebyside's, a table's words crate tablebytes'. The
// header for C is include/hub_kernel_rows.h.
#![tactic(auto)]

ghost use Rattle.pairs.specs.Pairs.{RowsOfBytes, rows_numbers_of};
ghost use Rattle.std.specs.Prelude.{◌≡◌};

use rules::Refusal;
use sidebyside::Shown;

#[repr(C)]
#[derive(Clone, Copy)]
pub struct HubKernelRowsReply {
    pub refusal: u32,
    pub length: u32,
    pub marked: u32,
}

// "A refusal .. gives 0 and 0."
impl From<Result<Shown, Refusal>> for HubKernelRowsReply {
    ghost from_gives = { λ r n. n ≡ rows_numbers_of r };

    fn from(r: Result<Shown, Refusal>) -> HubKernelRowsReply {
        match r {
            Ok(shown) => HubKernelRowsReply {
                refusal: 0,
                length: shown.length,
                marked: shown.marked,
            },
            Err(e) => HubKernelRowsReply {
                refusal: e.number(),
                length: 0,
                marked: 0,
            },
        }
    }
}

// The rows of two tables, into a lent buffer of bytes.
#[unsafe(no_mangle)]
pub extern "C" fn hub_kernel_rows(
    first: &[u8],
    second: &[u8],
    text: &mut [u8],
) -> HubKernelRowsReply
    ensures { RowsOfBytes first.now second.now text.old result text.new }
{
    let mut old = [0u32; records::TABLE_SIZE_TWO];
    let mut new = [0u32; records::TABLE_SIZE_TWO];
    let n = tablebytes::table_words(first, &mut old);
    let m = tablebytes::table_words(second, &mut new);
    HubKernelRowsReply::from(sidebyside::show(&old[..n], &new[..m], text))
}
