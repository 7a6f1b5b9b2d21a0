// LOAD and STORE.

#![tactic(auto)]

ghost use Rattle.std.specs.Prelude.{◌≡◌};
ghost use Rattle.entry.specs.Numbers.{INVALID, NORMAL};
ghost use Rattle.entry.specs.Packing.{entry};
ghost use Rattle.entry.specs.Kinds.{state_number};
ghost use Rattle.rules.specs.State.{outcome, counted};
ghost use Rattle.rules.specs.Own.{find_entry};
ghost use Rattle.rules.specs.Load.{load_miss, load_on, load};
ghost use Rattle.rules.specs.Store.{roll_own, drop_normal, store_through, store_miss, store_line, store};
ghost use Rattle.caches.specs.Own.{below};

use caches::Own;
use entry::Entry;
use entry::answer::{Answer, Answered, Counts};
use entry::numbers::{Cycle, State, Tag};
use rules::{Caches, Dims};

#[tactic(auto, unfolding(rules::specs::Load::load_miss))]
fn load_miss(c: &mut Caches, d: Dims, p: usize, word: u8) -> Answered
    ensures { outcome result c.new ≡ load_miss d p word c.old }
{
    let home = d.home(word);
    let writes = caches::clear_line(c, p, home);
    snoop::plain_request(c, d, p, word, Cycle::Read);
    let value = c.word_at(word);
    c.put_line(p, home, Entry::regular(State::Valid, word, value));
    Answered {
        answer: Answer::Value(value),
        counts: Counts::asked(Cycle::Read, writes.into(), 0),
    }
}

// The NORMAL entry is looked for already.
// Three contracts tell of it and no type does: one that kept the fact would have to hold c, which goes on to caches and snoop by itself.
#[tactic(auto, unfolding(rules::specs::Load::load_on))]
fn load_on(c: &mut Caches, d: Dims, p: usize, word: u8, normal: Option<usize>) -> Answered
    requires { normal ≡ below d.entries (find_entry c.old.entries p d.entries NORMAL word) }
    ensures { outcome result c.new ≡ load_on d p word c.old }
{
    match normal {
        Some(i) => Answered::quiet(Answer::Value(c.entry_at(p, i).data)),
        None => load_miss(c, d, p, word),
    }
}

#[tactic(auto, unfolding(rules::specs::Load::load, caches::specs::Own::own_entry))]
pub fn load(c: &mut Caches, d: Dims, p: usize, word: u8) -> Answered
    ensures { outcome result c.new ≡ load d p word c.old }
{
    let line = c.line_at(p, d.home(word));
    if caches::holds(line, word) {
        return Answered::quiet(Answer::Value(line.data));
    }
    match caches::own_entry(c, d, p, word) {
        Own::Tentative(i) => {
            let tentative = c.entry_at(p, i);
            if tentative.state == State::Valid {
                return Answered::quiet(Answer::Value(tentative.data));
            }
            caches::rollback(c, d, p);
            let normal = caches::find_entry(c, d, p, Tag::Normal, word);
            load_on(c, d, p, word, normal)
        }
        Own::Normal(i) => load_on(c, d, p, word, Some(i)),
        Own::Nowhere => load_on(c, d, p, word, None),
    }
}

// Answers where the NORMAL entry then stands.
#[tactic(auto, unfolding(rules::specs::Store::roll_own, caches::specs::Own::own_entry))]
fn roll_own(c: &mut Caches, d: Dims, p: usize, word: u8) -> Option<usize>
    ensures rolled { c.new ≡ roll_own d p word c.old }
    ensures value { result ≡ below d.entries (find_entry c.new.entries p d.entries NORMAL word) }
{
    match caches::own_entry(c, d, p, word) {
        Own::Tentative(_) => {
            caches::rollback(c, d, p);
            caches::find_entry(c, d, p, Tag::Normal, word)
        }
        Own::Normal(i) => Some(i),
        Own::Nowhere => None,
    }
}

// transact's miss_at has the same match. One function for both would need a third definition beside drop_normal and clear_backup.
#[tactic(auto, unfolding(rules::specs::Store::drop_normal))]
fn drop_normal(c: &mut Caches, d: Dims, p: usize, word: u8, normal: Option<usize>) -> u8
    requires { normal ≡ below d.entries (find_entry c.old.entries p d.entries NORMAL word) }
    ensures { counted result c.new ≡ drop_normal d p word c.old }
{
    match normal {
        Some(i) => caches::clear_entry(c, p, i),
        None => 0,
    }
}

// What a STORE uses of its step.
// LOAD, roll_own and drop_normal use p and word one by one, without a value: a struct of two would only put x. before each use.
#[derive(Clone, Copy)]
struct Operands {
    p: usize,
    word: u8,
    value: u32,
}

impl Operands {
    fn line(self, state: State) -> Entry
        ensures { result ≡ entry (state_number state) INVALID self.word self.value }
    {
        Entry::regular(state, self.word, self.value)
    }
}

#[tactic(auto, unfolding(rules::specs::Store::store_through))]
fn store_through(c: &mut Caches, d: Dims, x: Operands, writes: u8) -> Answered
    ensures { outcome result c.new ≡ store_through d x.p x.word x.value writes c.old }
{
    snoop::plain_request(c, d, x.p, x.word, Cycle::Write);
    c.memory[usize::from(x.word)] = x.value;
    c.put_line(x.p, d.home(x.word), x.line(State::Reserved));
    Answered {
        answer: Answer::Done,
        counts: Counts::asked(Cycle::Write, writes.into(), 0),
    }
}

#[tactic(auto, unfolding(rules::specs::Store::store_miss))]
fn store_miss(c: &mut Caches, d: Dims, x: Operands, writes: u8) -> Answered
    ensures { outcome result c.new ≡ store_miss d x.p x.word x.value writes c.old }
{
    let home = d.home(x.word);
    let evicted = caches::clear_line(c, x.p, home);
    snoop::plain_request(c, d, x.p, x.word, Cycle::Rfo);
    c.put_line(x.p, home, x.line(State::Dirty));
    Answered {
        answer: Answer::Done,
        counts: Counts::asked(Cycle::Rfo, u16::from(writes) + u16::from(evicted), 0),
    }
}

#[tactic(auto, unfolding(rules::specs::Store::store_line))]
fn store_line(c: &mut Caches, d: Dims, x: Operands, writes: u8) -> Answered
    ensures { outcome result c.new ≡ store_line d x.p x.word x.value (counted writes c.old) }
{
    let home = d.home(x.word);
    let line = c.line_at(x.p, home);
    if !caches::holds(line, x.word) {
        return store_miss(c, d, x, writes);
    }
    if line.state == State::Valid {
        return store_through(c, d, x, writes);
    }
    c.put_line(x.p, home, x.line(State::Dirty));
    Answered {
        answer: Answer::Done,
        counts: Counts::quiet(writes.into()),
    }
}

// Its parameters are the definition's, of which docs/PROMISES.md speaks: Operands are made inside.
#[tactic(auto, unfolding(rules::specs::Store::store))]
pub fn store(c: &mut Caches, d: Dims, p: usize, word: u8, value: u32) -> Answered
    ensures { outcome result c.new ≡ store d p word value c.old }
{
    let normal = roll_own(c, d, p, word);
    let writes = drop_normal(c, d, p, word, normal);
    store_line(c, d, Operands { p, word, value }, writes)
}
