// The words that people read about a hub: what a cell of the comparison says of its kind and of what it holds. As in crate texts,
// whose writer this is: what has no room is left out.
// Not here: which cells there are, in which order, and which are marked (crates rows and sidebyside).
#![tactic(auto)]

ghost use Rattle.std.specs.Prelude.{◌*◌, ◌+◌, ◌≤◌, ◌≡◌};
ghost use Rattle.hubtexts.specs.Cells.{block_text, blocks_text, board_text, count_text, held_from, holds_text, kind_text, none_text, word_text, words_text};
ghost use Rattle.messages.specs.Messages.{message_at};
ghost use Rattle.texts.specs.Texts.{Wrote};

use records::HubRecord;
use texts::Writer;

// A hub's store: it starts at word `from`, in messages of w words each.
#[derive(Clone, Copy)]
pub struct Store<'a> {
    pub words: &'a [u32],
    pub from: usize,
    pub w: usize,
    pub ghost from_bound: { from ≤ 65535 },
    pub ghost w_bound: { w ≤ 2 },
}

impl Store<'_> {
    // Its k-th message, from 0.
    fn message(&self, k: u32) -> u64
        ensures { result ≡ message_at self.now.w self.now.words.now (self.now.from + k * self.now.w) }
    {
        messages::message(self.words, self.from + k as usize * self.w, self.w)
    }
}

// The kind of a hub, with its limit and start where a kind leaves them open.
#[tactic(auto, unfolding(crate::specs::Cells::kind_text))]
pub fn put_kind(out: &mut Writer, x: HubRecord)
    ensures { Wrote out.old (kind_text x) out.new }
{
    match x.kind {
        rules::EVENT => out.bytes(b"Event"),
        rules::SEMAPHORE => {
            out.between(b"Semaphore, limit ", x.limit, b", start ");
            out.number(x.start);
        }
        rules::PORT => out.bytes(b"Port"),
        rules::FIFO => out.labelled(b"FIFO, limit ", x.limit),
        rules::RESOURCE => out.bytes(b"Resource"),
        rules::BOARD => out.bytes(b"Board"),
        _ => out.labelled(b"Memory, limit ", x.limit),
    }
}

// The k-th word of a FIFO, from 0.
fn put_word(out: &mut Writer, k: u32, m: u64)
    ensures { Wrote out.old (word_text k m) out.new }
{
    if k != 0 {
        out.bytes(b", ");
    }
    texts::put_message(out, m);
}

// The words of a FIFO, which holds `count` messages.
fn put_words(out: &mut Writer, store: &Store, count: u32)
    ensures { Wrote out.old (words_text (held_from store.now.w store.now.words.now store.now.from count)) out.new }
{
    if count == 0 {
        out.bytes(b"empty");
        return;
    }
    for k in 0..count {
        put_word(out, k, store.message(k));
    }
}

// What a hub holds.
#[tactic(auto, unfolding(crate::specs::Cells::holds_text))]
pub fn put_holds(out: &mut Writer, store: &Store, x: HubRecord)
    ensures { Wrote out.old (holds_text store.now.w store.now.words.now store.now.from x) out.new }
{
    match x.kind {
        rules::FIFO => put_words(out, store, x.count),
        rules::BOARD => put_board(out, store, x.count),
        rules::MEMORY => put_blocks(out, store),
        _ => put_count(out, x),
    }
}

// Block b of a Memory hub; k were named before.
#[tactic(auto, unfolding(crate::specs::Cells::block_text))]
fn put_block(out: &mut Writer, k: u32, b: u32)
    ensures { Wrote out.old (block_text k b) out.new }
{
    if k == 0 {
        out.labelled(b"blocks out: ", b);
    } else {
        out.labelled(b", ", b);
    }
}

// Behind the last block: that none is out, where none was named.
fn put_none(out: &mut Writer, k: u32)
    ensures { Wrote out.old (none_text k) out.new }
{
    if k == 0 {
        out.bytes(b"no block out");
    }
}

// The blocks of a Memory hub that are out, by its eight marks.
fn put_blocks(out: &mut Writer, store: &Store)
    ensures { Wrote out.old (blocks_text store.now.w store.now.words.now store.now.from) out.new }
{
    let mut k = 0;
    for b in 0..rules::MOST_HELD {
        if store.message(b) != 0 {
            put_block(out, k, b);
            k += 1;
        }
    }
    put_none(out, k);
}

// What a Board holds.
fn put_board(out: &mut Writer, store: &Store, count: u32)
    ensures { Wrote out.old (board_text store.now.w store.now.words.now store.now.from count) out.new }
{
    if count == 0 {
        out.bytes(b"not written");
    } else {
        out.bytes(b"written: ");
        texts::put_message(out, store.message(0));
    }
}

// What a hub holds whose count says all.
#[tactic(auto, unfolding(crate::specs::Cells::count_text))]
fn put_count(out: &mut Writer, x: HubRecord)
    ensures { Wrote out.old (count_text x) out.new }
{
    match (x.kind, x.count) {
        (rules::EVENT, 0) => out.bytes(b"not set"),
        (rules::EVENT, _) => out.bytes(b"set"),
        (rules::SEMAPHORE, n) => out.labelled(b"count ", n),
        (rules::RESOURCE, 0) => out.bytes(b"free"),
        (rules::RESOURCE, owner) => out.labelled(b"owner: task ", texts::named(owner)),
        _ => out.bytes(b"nothing"),
    }
}
