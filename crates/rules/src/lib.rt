// The machine's types. What document 01 says of them stands in specs/, one file for each of its paragraphs.

#![tactic(auto)]

ghost use Rattle.std.specs.Prelude.{◌≡◌};
ghost use Rattle.rules.specs.State.{place, line_at, entry_at, word_at, with_line, with_entry, TSTATUS};
ghost use Rattle.rules.specs.Own.{home};
ghost use Rattle.rules.specs.Step.{narrowed};

use entry::Entry;
use entry::answer::Answered;
use entry::refusals::Refusal;

#[derive(Clone, Copy)]
pub struct Dims {
    pub processors: usize,
    pub words: usize,
    pub lines: usize,
    pub entries: usize,
}

impl Dims {
    // The line that a word uses. A machine of no lines is never made; the remainder by 0 is the word itself, as in the definition.
    #[tactic(auto, unfolding(crate::specs::Own::home))]
    pub fn home(self, word: u8) -> usize
        ensures { result ≡ home self word }
    {
        let word = usize::from(word);
        word.checked_rem(self.lines).unwrap_or(word)
    }
}

// Memory; regular lines or transactional entries, packed; flags. A flag is a number, since a state that is handed in may hold any: flags_ok
// tests it.
// Flat, and of one length: the definition place and its theorem place_plain count so, C's array has the places so, and there is no heap.
pub type Memory = [u32; 256];

pub type Copies = [u64; 512];

pub type Flags = [u8; 16];

// The state that steps change. Processor p's regular line i stands at place(p, i), and so does its transactional entry i. TACTIVE of p is flag p
// and TSTATUS flag 8 + p, each 0 or 1: the definitions active_place and status_place, and C's array has them so.
#[derive(Clone, Copy)]
pub struct Caches {
    pub memory: Memory,
    pub lines: Copies,
    pub entries: Copies,
    pub flags: Flags,
}

// No step changes the dimensions: it is lent the caches alone.
#[derive(Clone, Copy)]
pub struct Machine {
    pub dims: Dims,
    pub caches: Caches,
}

// Where processor p's line or entry i stands. The remainders keep every access inside the arrays; within the dimensions they do nothing.
// p and i come apart, here and in what calls it, since place, line_at and entry_at of the definitions, and the theorems, have them apart.
pub fn place(p: usize, i: usize) -> usize
    ensures { result ≡ place p i }
{
    p % 8 * 64 + i % 64
}

impl Caches {
    // Of lines and of entries apart: so are line_at and entry_at, with_line and with_entry, of which docs/PROMISES.md speaks.
    pub fn line_at(&self, p: usize, i: usize) -> Entry
        ensures { result ≡ line_at self.now p i }
    {
        Entry::unpack(self.lines[place(p, i)])
    }

    pub fn entry_at(&self, p: usize, i: usize) -> Entry
        ensures { result ≡ entry_at self.now p i }
    {
        Entry::unpack(self.entries[place(p, i)])
    }

    pub fn word_at(&self, word: u8) -> u32
        ensures { result ≡ word_at self.now word }
    {
        self.memory[usize::from(word)]
    }

    pub fn put_line(&mut self, p: usize, i: usize, e: Entry)
        ensures { self.new ≡ with_line self.old p i e }
    {
        self.lines[place(p, i)] = e.pack();
    }

    pub fn put_entry(&mut self, p: usize, i: usize, e: Entry)
        ensures { self.new ≡ with_entry self.old p i e }
    {
        self.entries[place(p, i)] = e.pack();
    }

    // TSTATUS of p.
    pub fn is_status_up(&self, p: usize) -> bool
        ensures { result ≡ TSTATUS self.now p }
    {
        self.flags[8 + p % 8] != 0
    }
}

// The byte that the caches know a word by. No TryFrom, which would refuse: the definition narrowed is the remainder, of any word.
pub fn narrowed(word: u32) -> u8
    ensures { result ≡ narrowed word }
{
    (word % 256) as u8
}

// A making that was refused: its refusal, and the smallest machine.
#[derive(Clone, Copy)]
pub struct NotMade {
    pub refusal: Refusal,
    pub machine: Machine,
}

// A settling that was refused: its refusal, and zeros.
#[derive(Clone, Copy)]
pub struct NotSettled {
    pub refusal: Refusal,
    pub values: Memory,
}

#[derive(Clone, Copy)]
pub struct Stepped {
    pub told: Answered,
    pub machine: Machine,
}
