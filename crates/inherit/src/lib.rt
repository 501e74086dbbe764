// M-108, priority inheritance, in the words of a table: who is asked at which hubs, found once for a table; the effective
// priority of a task, by one function over a task and one over a Resource's waiting list, calling each other with a depth
// allowance that falls from 16, once for each task; the sixteen keys; the test of order by keys. Safe and ending on any
// table; where the lists are exact, the rules'.
// Not here: what an effective priority means (crate rules), the reordering at the end of a call, the services.
#![tactic(auto)]

ghost use Rattle.std.specs.Prelude.{◌<◌, min, get_or, length, ◌≡◌};
ghost use Rattle.inherit.specs.Asked.{asked_owner, is_asked, nobody_asked};
ghost use Rattle.inherit.specs.Keyed.{Keyed, Owned};
ghost use Rattle.inherit.specs.Linked.{Linked};
ghost use Rattle.lists.specs.Lists.{numbers};
ghost use Rattle.records.specs.Records.{Table};
ghost use Rattle.rules.proofs.Layouts.{Laid};
ghost use Rattle.rules.proofs.Valid.{Sound};
ghost use Rattle.rules.specs.Effective.{over_task, over_waiters};
ghost use Rattle.rules.specs.Table.{Layout, State, hub, words};
ghost use Rattle.rules.specs.WellFormed.{for_all, in_order_by, rising};

use records::{COUNT, HUB_SIZE, HUBS, HubNo, LIST_SIZE, PRIORITY, TableView, TaskNo};
use rules::Kind;

// How many hubs are in use, on any table at most 16.
fn hubs_in(t: &TableView<'_>) -> usize
    ensures { result ≡ min (get_or t.now.words.now 2 0) 16 }
{
    let m = t.words[HUBS] as usize;
    if m < 16 { m } else { 16 }
}

// Whether hub h is a Resource with a waiter. Both words are read, whatever the first one says, so that a loop over the hubs has no
// branch for each of them.
fn is_asked(t: &TableView<'_>, h: usize) -> bool
    requires h_bound { h < 16 }
    ensures { (L : Layout) (s : State) → Laid t.now.ts.words L → Sound s → t.now.words.now ≡ words L s → h < length s.hubs
        → result ≡ is_asked (hub s h) }
{
    let b = records::hubs_at(t.ts.words) + h * HUB_SIZE;
    (Kind::of(t.words[b]) == Some(Kind::Resource))
        & (t.words[records::waits_at(t.ts.words, HubNo(h))] != 0)
}

// Whether no hub in use is a Resource with a waiter: the common case, in which every task has its own priority.
fn nobody_asked(t: &TableView<'_>) -> bool
    ensures { (L : Layout) (s : State) → Laid t.now.ts.words L → Sound s → t.now.words.now ≡ words L s → result ≡ nobody_asked s }
{
    let m = hubs_in(t);
    let mut nobody = true;
    for h in 0..m {
        nobody = !is_asked(t, h) & nobody;
    }
    nobody
}

// The owner, plus 1, of hub h where it is a Resource with a waiter; else 0. A word of the table, as a list's entries stand there.
fn asked_owner(t: &TableView<'_>, h: usize) -> u32
    requires h_bound { h < 16 }
    ensures { (L : Layout) (s : State) → Laid t.now.ts.words L → Sound s → t.now.words.now ≡ words L s → h < length s.hubs
        → result ≡ asked_owner (hub s h) }
{
    if !is_asked(t, h) {
        return 0;
    }
    t.words[records::hubs_at(t.ts.words) + h * HUB_SIZE + COUNT]
}

// Who is asked where, found once, so that nobody looks through all hubs for each task that it comes to. Words 0 to 15: for
// each task number the first hub, in hub number order, that it is asked at; 16 to 31: for each hub the next one of the same
// owner; 16 is none. From the last hub to the first, so that what an owner has so far is what comes next.
fn links(t: &TableView<'_>) -> [u32; 32]
    ensures { Linked t.now.ts.words t.now.words.now result }
{
    let mut ks = [16u32; 32];
    for h in (0..hubs_in(t)).rev() {
        let o = asked_owner(t, h) as usize;
        if (1 <= o) & (o <= 16) {
            let next = ks[o - 1];
            ks[16 + h] = next;
            ks[o - 1] = h as u32;
        }
    }
    ks
}

// Over a task: the smallest of p, its own priority, and those that the waiters of its Resources find. A number above 15,
// which a damaged list may have, is no task.
// The `while` counts nothing: it follows the links.
#[cycle(over_task_over_waiters)]
fn over_task(t: &TableView<'_>, links: &[u32; 32], i: TaskNo, depth: usize, p: u32) -> u32
    requires linked { Linked t.now.ts.words t.now.words.now links.now }
    ensures { (L : Layout) (s : State) → Laid t.now.ts.words L → Sound s → t.now.words.now ≡ words L s → i.0 < 16
        → result ≡ over_task depth s i.0 p }
{
    let n = i.0;
    if depth == 0 {
        return p;
    }
    if 16 <= n {
        return p;
    }
    let q = t.words[records::task_at(t.ts.words, TaskNo(n)) + PRIORITY];
    let mut best = if q < p { q } else { p };
    let mut h = links[n];
    while h < 16 {
        let at = h as usize;
        best = over_waiters(t, links, HubNo(at), depth - 1, best);
        h = links[16 + at];
    }
    best
}

// Over a Resource's waiting list: the smallest of p and those that each waiter finds.
#[cycle(over_task_over_waiters)]
fn over_waiters(t: &TableView<'_>, links: &[u32; 32], h: HubNo, depth: usize, p: u32) -> u32
    requires linked { Linked t.now.ts.words t.now.words.now links.now }
    requires h_bound { h.0 < 16 }
    ensures { (L : Layout) (s : State) → Laid t.now.ts.words L → Sound s → t.now.words.now ≡ words L s → h.0 < length s.hubs
        → result ≡ over_waiters (over_task depth s) (hub s h.0).waiters p }
{
    let at = records::waits_at(t.ts.words, h);
    let mut best = p;
    for e in &t.words[at..at + LIST_SIZE] {
        if *e == 0 {
            return best;
        }
        best = over_task(t, links, TaskNo((*e - 1) as usize), depth, best);
    }
    best
}

// The own priority of each task number; of a number not in use 0. The keys are written where the caller wants them, here and
// below, and so are not copied.
fn own_keys(t: &TableView<'_>, keys: &mut [u32; 16])
    ensures { Owned t.now.ts.words t.now.words.now keys.new }
{
    for (i, key) in keys.iter_mut().enumerate() {
        *key = t.words[records::task_at(t.ts.words, TaskNo(i)) + PRIORITY];
    }
}

// The key of each task number where somebody is asked. "To at most 16 tasks deep"; who is asked nowhere has its own.
fn asked_keys(t: &TableView<'_>, keys: &mut [u32; 16])
    ensures { Keyed t.now.ts.words t.now.words.now keys.new }
{
    let ls = links(t);
    own_keys(t, keys);
    for (i, key) in keys.iter_mut().enumerate() {
        if ls[i] < 16 {
            *key = over_task(t, &ls, TaskNo(i), 16, *key);
        }
    }
}

// The key of each task number, by which it joins a list: its effective priority; of a number not in use 0.
pub fn find_keys(t: &TableView<'_>, keys: &mut [u32; 16])
    ensures { Keyed t.now.ts.words t.now.words.now keys.new }
{
    if nobody_asked(t) {
        own_keys(t, keys);
        return;
    }
    asked_keys(t, keys);
}

// The keys as a value, for those who look at them once.
pub fn keys(t: &TableView<'_>) -> [u32; 16]
    ensures { Keyed t.now.ts.words t.now.words.now result }
{
    let mut ks = [0u32; 16];
    find_keys(t, &mut ks);
    ks
}

// A list's entries by rising key, where keys gives each number its key. Any words: up to the first 0.
fn list_rising(list: &[u32], keys: &[u32]) -> bool
    ensures { result ≡ rising (λ j. get_or keys.now j 0) (numbers list.now) }
{
    let mut last = 0;
    for e in list {
        if *e == 0 {
            return true;
        }
        let q = lists::word(keys, (*e - 1) as usize);
        if q < last {
            return false;
        }
        last = q;
    }
    true
}

// The list of hub h. Where its second word is 0 there are not two entries to compare: most lists are left here.
fn hub_rising(t: &TableView<'_>, keys: &[u32], h: usize) -> bool
    requires h_bound { h < 16 }
    ensures { (L : Layout) (s : State) → Laid t.now.ts.words L → Sound s → t.now.words.now ≡ words L s → h < length s.hubs
        → result ≡ rising (λ j. get_or keys.now j 0) (hub s h).waiters }
{
    let a = records::waits_at(t.ts.words, HubNo(h));
    if t.words[a + 1] == 0 {
        return true;
    }
    list_rising(&t.words[a..a + LIST_SIZE], keys)
}

// The lists of the hubs in use.
fn hubs_rising(t: &TableView<'_>, keys: &[u32]) -> bool
    ensures { (L : Layout) (s : State) → Laid t.now.ts.words L → Sound s → t.now.words.now ≡ words L s
        → result ≡ for_all (length s.hubs) (λ h. rising (λ j. get_or keys.now j 0) (hub s h).waiters) }
{
    (0..hubs_in(t)).all(|h| hub_rising(t, keys, h))
}

// "Lists are ordered by effective priority, and well formed says so too", where these are the keys: asked once the lists are
// found exact.
pub fn in_order(t: &TableView<'_>, keys: &[u32]) -> bool
    ensures { (L : Layout) (s : State) → Laid t.now.ts.words L → Sound s → t.now.words.now ≡ words L s
        → result ≡ in_order_by (λ j. get_or keys.now j 0) s }
{
    let a = records::ready_at(t.ts.words);
    if !list_rising(&t.words[a..a + LIST_SIZE], keys) {
        return false;
    }
    hubs_rising(t, keys)
}
