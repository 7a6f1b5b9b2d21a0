// The settled value of a word. The caches and their sizes, c and d, come apart, as its definition, settled_in, takes them.

ghost use Rattle.std.specs.Prelude.{◌≡◌, ◌≤◌};
ghost use Rattle.caches.specs.Own.{below};
ghost use Rattle.rules.specs.Step.{settled_all};
ghost use Rattle.rules.specs.Settled.{is_dirty, is_settling, settling_entry, settled_in};
ghost use Rattle.machine.specs.Settling.{settling_value};

use entry::Entry;
use entry::numbers::{State, Tag};
use rules::{Caches, Dims, Memory};

fn is_dirty(e: Entry, word: u8) -> bool
    ensures { result ≡ is_dirty e word }
{
    e.state == State::Dirty && e.word == word
}

fn is_settling(e: Entry, word: u8) -> bool
    ensures { result ≡ is_settling e word }
{
    matches!(e.tag, Tag::Normal | Tag::Backup) && is_dirty(e, word)
}

// The first of q's entries that is NORMAL or a backup, DIRTY, and of the word.
fn settling_entry(c: &Caches, d: Dims, q: usize, word: u8) -> Option<usize>
    ensures { result ≡ below d.entries (settling_entry c.now.entries q d.entries word) }
{
    (0..d.entries).find(|i| is_settling(c.entry_at(q, *i), word))
}

// The data of q's copy that settles the word, its line being i: a line, else an entry.
#[tactic(auto, unfolding(rules::specs::Settled::settles))]
fn settling_value(c: &Caches, d: Dims, i: usize, word: u8, q: usize) -> Option<u32>
    ensures { result ≡ settling_value d i word c.now q }
{
    let line = c.line_at(q, i);
    if is_dirty(line, word) {
        return Some(line.data);
    }
    let k = settling_entry(c, d, q, word)?;
    Some(c.entry_at(q, k).data)
}

pub(crate) fn settled_in(c: &Caches, d: Dims, word: u8) -> u32
    ensures { result ≡ settled_in d word c.now }
{
    let i = d.home(word);
    // No `find_map`: it was tried, and the proof that its answer is settled_in's did not close.
    for q in 0..d.processors {
        if let Some(value) = settling_value(c, d, i, word, q) {
            return value;
        }
    }
    c.word_at(word)
}

pub(crate) fn settled_all(c: &Caches, d: Dims) -> Memory
    requires { d.words ≤ 256 }
    ensures { result ≡ settled_all d c.now }
{
    let mut values = [0u32; 256];
    for word in 0..d.words {
        values[word] = settled_in(c, d, word as u8);
    }
    values
}
