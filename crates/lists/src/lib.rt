// Lists of entries in a lent slice of words: an entry is a number plus 1, first entry first, and what is unused is 0.
// Any length, any words; no table in sight, and nothing is required but that a number plus 1 is a word.
#![tactic(auto)]

ghost use Rattle.std.specs.Prelude.{◌<◌, suc, get_or, set, ◌≡◌};
ghost use Rattle.lists.specs.Lists.{Joined, all_zero, found_at, index_of, insert_at, place_in, remove_at, remove_first};

// The word at i. Past the end it is 0, so that no caller has to know the length.
pub fn word(s: &[u32], i: usize) -> u32
    ensures { result ≡ get_or s.now i 0 }
{
    s.get(i).copied().unwrap_or(0)
}

// v at i. Past the end nothing changes, so that no caller has to know the length.
pub fn set_word(s: &mut [u32], i: usize, v: u32)
    ensures { s.new ≡ set s.old i v }
{
    if i < s.len() {
        s[i] = v;
    }
}

// The first place that holds v.
fn find(list: &[u32], v: u32) -> Option<usize>
    ensures { result ≡ found_at v list.now }
{
    list.iter().position(|word| *word == v)
}

// v at place `at`, all from there on one place further, the last one lost.
fn insert_at(list: &mut [u32], at: usize, v: u32)
    ensures { list.new ≡ insert_at at v list.old }
{
    let n = list.len();
    if at < n {
        list.copy_within(at..n - 1, at + 1);
        list[at] = v;
    }
}

// The entry at `at` goes, those behind it move up, and a 0 comes last.
fn remove_at(list: &mut [u32], at: usize)
    ensures { list.new ≡ remove_at at list.old }
{
    let n = list.len();
    if at < n {
        list.copy_within(at + 1.., at);
        list[n - 1] = 0;
    }
}

// The first n words go, those behind them move up, and zeros come last.
pub fn remove_first(list: &mut [u32], n: usize)
    ensures { list.new ≡ remove_first n list.old }
{
    let n = n.min(list.len());
    let left = list.len() - n;
    list.copy_within(n.., 0);
    list[left..].fill(0);
}

// "Everything unused is 0": nothing but zeros. No early way out: the words are put together, which the compiler makes wide.
pub fn zeros(s: &[u32]) -> bool
    ensures { result ≡ all_zero s.now }
{
    s.iter().fold(0, |any, word| any | *word) == 0
}

// "behind all entries of its own or a more urgent priority": the place of one with this key, in front of the first that is less
// urgent, or of what is unused. keys gives each number its key, the smaller the more urgent.
fn place(list: &[u32], keys: &[u32], key: u32) -> usize
    ensures { result ≡ place_in keys.now key list.now }
{
    list.iter()
        .position(|e| *e == 0 || key < word(keys, *e as usize - 1))
        .unwrap_or(list.len())
}

// Number i joins the list at the place that its key gives it, and the place is what comes back.
pub fn join(list: &mut [u32], keys: &[u32], i: usize) -> usize
    requires { i < 4294967295 }
    ensures { Joined keys.now i list.old result list.new }
{
    let key = word(keys, i);
    let k = place(list, keys, key);
    insert_at(list, k, (i + 1) as u32);
    k
}

// Number i leaves the list. Where it does not stand in it, nothing changes.
pub fn leave(list: &mut [u32], i: usize)
    requires { i < 4294967295 }
    ensures { list.new ≡ remove_at (index_of (suc i) list.old) list.old }
{
    if let Some(k) = find(list, (i + 1) as u32) {
        remove_at(list, k);
    }
}
