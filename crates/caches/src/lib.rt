// One processor's caches, as steps look for its copies and change them.

#![tactic(auto)]

ghost use Rattle.std.specs.Prelude.{◌≡◌, Bool, false, ℕ, ◌<◌, ◌≤◌, ◌^◌, length, get_or};
ghost use Rattle.std.specs.List.{All};
ghost use Rattle.laws.specs.Search.{first_from};
ghost use Rattle.entry.specs.Copy.{Fields};
ghost use Rattle.entry.specs.Kinds.{tag_number};
ghost use Rattle.entry.specs.Packing.{no_entry, unpack};
ghost use Rattle.rules.specs.State.{caches, copy_at, with_copy, line_at, entry_at, with_memory, counted};
ghost use Rattle.rules.specs.Own.{holds, has_entry, find_entry, is_free, lowest, free_slot, live_entry};
ghost use Rattle.rules.specs.Rollback.{repacked, over_entries, rollback, committed_entries};
ghost use Rattle.rules.specs.Snoop.{written_back, writes, clear_line, clear_entry};
ghost use Rattle.caches.specs.Own.{below, own_entry};

use entry::numbers::{State, Tag};
use entry::{Entry, packed};
use rules::{Caches, Copies, Dims, Memory, place};

// A processor's own entry of a word, and its place.
#[derive(Clone, Copy)]
pub enum Own {
    Tentative(usize),
    Normal(usize),
    Nowhere,
}

pub fn holds(e: Entry, word: u8) -> bool
    ensures { result ≡ holds e word }
{
    e.state != State::Invalid && e.word == word
}

// Whether one of eight passes. Each is tested, with no way out before the end, so that the eight become straight code.
fn one_passes<K: Copy, F: Fn(u64, K) -> bool>(eight: &[u64; 8], key: K, test: &F) -> bool
    requires { F.IsAlwaysCallable test.now }
    ensures { result ≡ false → All (λ x. F.post test.now x key false) eight.now }
{
    eight.iter().fold(false, |passed, x| passed | test(*x, key))
}

// How many at the front are passed over, eight at a time, since none of them passes: a search that looks far is up to twice as fast so. A call
// of its own: written out in each search, it slows those among few.
#[inline(never)]
fn eights_over<K: Copy, F: Fn(u64, K) -> bool>(own: &[u64], key: K, test: &F) -> usize
    requires { F.IsAlwaysCallable test.now }
    ensures within { result ≤ length own.now }
    ensures none { (k : ℕ) → k < result → let x = get_or own.now k 0 in (x < 2 ^ 64) × F.post test.now x key false }
{
    let (eights, _) = own.as_chunks::<8>();
    let found = eights.iter().position(|eight| one_passes(eight, key, test));
    8 * found.unwrap_or(eights.len())
}

// The same, but none of few: a search among them does not look far.
#[inline]
fn passed_over<K: Copy, F: Fn(u64, K) -> bool>(own: &[u64], key: K, test: &F) -> usize
    requires { F.IsAlwaysCallable test.now }
    ensures within { result ≤ length own.now }
    ensures none { (k : ℕ) → k < result → let x = get_or own.now k 0 in (x < 2 ^ 64) × F.post test.now x key false }
{
    if own.len() <= 8 {
        return 0;
    }
    eights_over(own, key, test)
}

// The first of p's entries that passes the test for the key. Places go round after 64, so that it need not look further.
// None before `from` passes.
#[inline]
fn first_entry<K: Copy, F: Fn(u64, K) -> bool>(
    c: &Caches,
    d: Dims,
    p: usize,
    from: usize,
    key: K,
    test: F,
) -> Option<usize>
    ghost has: { Fields → K → Bool }
    requires calls { F.IsAlwaysCallable test }
    requires tests { (x : ℕ) (b : Bool) → x < 2 ^ 64 → F.post test x key b → b ≡ has (unpack x) key }
    requires none { (k : ℕ) → k < from → has (entry_at c.now p k) key ≡ false }
    ensures { result ≡ below d.entries (first_from (λ i. has (entry_at c.now p i) key) 0 d.entries) }
{
    let base = place(p, 0);
    let own = &c.entries[base..base + d.entries.min(64)];
    let from = from.min(own.len());
    let behind = from + passed_over(&own[from..], key, &test);
    own[behind..]
        .iter()
        .position(|x| test(*x, key))
        .map(|i| behind + i)
}

// The search of find_entry. No entry before `from` has the tag and the word.
#[tactic(auto, unfolding(rules::specs::Own::find_entry))]
fn find_from(c: &Caches, d: Dims, p: usize, from: usize, tag: Tag, word: u8) -> Option<usize>
    requires { (k : ℕ) → k < from → has_entry c.now.entries p (tag_number tag) word k ≡ false }
    ensures { result ≡ below d.entries (find_entry c.now.entries p d.entries (tag_number tag) word) }
{
    first_entry(
        c,
        d,
        p,
        from,
        (tag, word),
        |x, (tag, word)| packed::is_entry(x, tag, word),
    )
}

pub fn find_entry(c: &Caches, d: Dims, p: usize, tag: Tag, word: u8) -> Option<usize>
    ensures { result ≡ below d.entries (find_entry c.now.entries p d.entries (tag_number tag) word) }
{
    find_from(c, d, p, 0, tag, word)
}

#[tactic(auto, unfolding(rules::specs::Own::live_entry))]
pub fn live_entry(c: &Caches, d: Dims, p: usize, word: u8) -> Option<usize>
    ensures { result ≡ below d.entries (live_entry c.now.entries p d.entries word) }
{
    first_entry(c, d, p, 0, word, packed::is_live)
}

// The tentative one, else the NORMAL one. Behind a NORMAL entry there is no tentative one in a sound state.
pub fn own_entry(c: &Caches, d: Dims, p: usize, word: u8) -> Own
    ensures { result ≡ own_entry c.now.entries p d.entries word }
{
    let Some(i) = live_entry(c, d, p, word) else {
        return Own::Nowhere;
    };
    if c.entry_at(p, i).tag == Tag::Tentative {
        return Own::Tentative(i);
    }
    match find_from(c, d, p, i, Tag::Tentative, word) {
        Some(k) => Own::Tentative(k),
        None => Own::Normal(i),
    }
}

fn is_free(c: &Caches, p: usize, tag: Tag, taken: usize, i: usize) -> bool
    ensures { result ≡ is_free c.now.entries p (tag_number tag) taken i }
{
    i != taken && c.entry_at(p, i).tag == tag
}

// No place before the first that has the tag is free. Document 01 names the form: a loop over the entries that yields its slot by break.
fn lowest(c: &Caches, d: Dims, p: usize, tag: Tag, taken: usize) -> Option<usize>
    ensures { result ≡ below d.entries (lowest c.now.entries p d.entries (tag_number tag) taken) }
{
    let mut i = first_entry(c, d, p, 0, tag, |x, tag| packed::tag_of(x) == tag)?;
    loop {
        if i >= d.entries {
            break None;
        }
        if is_free(c, p, tag, taken, i) {
            break Some(i);
        }
        i += 1;
    }
}

// taken is the number of entries where no slot is taken: so the definition free_slot has it.
#[tactic(auto, unfolding(rules::specs::Own::free_slot))]
pub fn free_slot(c: &Caches, d: Dims, p: usize, taken: usize) -> Option<usize>
    ensures { result ≡ below d.entries (free_slot c.now.entries p d.entries taken) }
{
    lowest(c, d, p, Tag::Invalid, taken)
        .or_else(|| lowest(c, d, p, Tag::Normal, taken))
        .or_else(|| lowest(c, d, p, Tag::Backup, taken))
}

// Each of p's entries becomes f of it.
fn each_entry<F: Fn(u64) -> u64>(entries: &mut Copies, d: Dims, p: usize, f: F)
    ghost g: { Fields → Fields }
    requires calls { F.IsAlwaysCallable f }
    requires gives { (x y : ℕ) → x < 2 ^ 64 → F.post f x y → y ≡ repacked g x }
    ensures { entries.new ≡ over_entries g p d.entries entries.old }
{
    for i in 0..d.entries {
        let j = place(p, i);
        entries[j] = f(entries[j]);
    }
}

// TSTATUS of p becomes false: its flag stands at the definition status_place, as C's array has it.
#[tactic(auto, unfolding(rules::specs::Rollback::rolled_entries, rules::specs::Rollback::status_down))]
pub fn rollback(c: &mut Caches, d: Dims, p: usize)
    ensures { c.new ≡ rollback d p c.old }
{
    each_entry(&mut c.entries, d, p, packed::rolled_back);
    c.flags[8 + p % 8] = 0;
}

#[tactic(auto, unfolding(rules::specs::Rollback::committed_entries))]
pub fn commit_entries(c: &mut Caches, d: Dims, p: usize)
    ensures { c.new ≡ caches c.old.memory c.old.lines (committed_entries c.old.entries p d.entries) c.old.flags }
{
    each_entry(&mut c.entries, d, p, packed::committed);
}

#[tactic(auto, unfolding(rules::specs::Snoop::written_back, rules::specs::Snoop::writes))]
fn give_back(memory: &mut Memory, e: Entry) -> u8
    ensures { (memory.new ≡ written_back memory.old e) × (result ≡ writes e) }
{
    if e.state == State::Dirty {
        memory[usize::from(e.word)] = e.data;
        1
    } else {
        0
    }
}

// Answers how many WRITE that is.
pub fn write_back(c: &mut Caches, e: Entry) -> u8
    ensures { counted result c.new ≡ counted (writes e) (with_memory c.old (written_back c.old.memory e)) }
{
    give_back(&mut c.memory, e)
}

// Of lines or of entries.
fn clear(memory: &mut Memory, copies: &mut Copies, p: usize, i: usize) -> u8
    ensures { (memory.new ≡ written_back memory.old (copy_at copies.old p i)) ×
        (copies.new ≡ with_copy copies.old p i no_entry) × (result ≡ writes (copy_at copies.old p i)) }
{
    let j = place(p, i);
    let e = Entry::unpack(copies[j]);
    copies[j] = 0;
    give_back(memory, e)
}

// A line is written back if DIRTY, and made invalid. Answers how many WRITE that is.
pub fn clear_line(c: &mut Caches, p: usize, i: usize) -> u8
    ensures { counted result c.new ≡ counted (writes (line_at c.old p i)) (clear_line c.old p i) }
{
    clear(&mut c.memory, &mut c.lines, p, i)
}

// And an entry.
pub fn clear_entry(c: &mut Caches, p: usize, i: usize) -> u8
    ensures { counted result c.new ≡ counted (writes (entry_at c.old p i)) (clear_entry c.old p i) }
{
    clear(&mut c.memory, &mut c.entries, p, i)
}
