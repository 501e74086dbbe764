// "Hub summary: given a table and a hub, one word with bit i set when task i waits there, and the number of set bits as
// count. Refused with 1, 2 or 5, then both are 0." Any words, any length, any hub number; the table is only read.
#![tactic(auto)]

ghost use Rattle.std.specs.Prelude.{◌<◌, ◌≤◌, true, ◌≡◌};
ghost use Rattle.lists.specs.Lists.{numbers, packed};
ghost use Rattle.rules.proofs.Layouts.{Laid};
ghost use Rattle.rules.specs.Reply.{summary_in};
ghost use Rattle.rules.specs.Table.{Layout};
ghost use Rattle.summaries.specs.Mask.{bit_of, mask_of};

use records::TaskSize;
use rules::{Refusal, Summary};

// The bit of an entry's task. An entry is a task number plus 1, and an empty one, 0, has no bit.
fn bit_of(entry: u32) -> u32
    requires { entry ≤ 16 }
    ensures { result ≡ bit_of entry }
{
    (1 << entry) >> 1
}

// The bits of the tasks of a list: entries, then zeros. It ends at the first empty entry (M-102).
fn mask_of(list: &[u32]) -> u32
    requires list_value { packed list.now ≡ true }
    requires list_bound { mask_of (numbers list.now) < 65536 }
    ensures { result ≡ mask_of (numbers list.now) }
{
    let mut mask = 0;
    for entry in list {
        if *entry == 0 {
            return mask;
        }
        mask += bit_of(*entry);
    }
    mask
}

pub fn summarise(t: &[u32], ts: TaskSize, hub: u32) -> Result<Summary, Refusal>
    ensures { (L : Layout) → Laid ts.words L → result ≡ summary_in L t.now hub }
{
    refusals::for_table(t, ts)?;
    let h = refusals::find_hub(t, hub).ok_or(Refusal::NotInUse)?;
    let at = records::waits_at(ts.words, h);
    let mask = mask_of(&t[at..at + records::LIST_SIZE]);
    Ok(Summary {
        mask,
        count: u32::count_ones(mask),
    })
}
