// One copy of a word, by value and packed in a number, and what happens to it.

#![tactic(auto)]

pub mod answer;
pub mod numbers;
pub mod packed;
pub mod refusals;
pub mod step;

ghost use Rattle.std.specs.Prelude.{◌≡◌};
ghost use Rattle.entry.specs.Packing.{entry, no_entry, pack, unpack};
ghost use Rattle.entry.specs.Entry.{with_state, with_tag, stored, shared, snooped};
ghost use Rattle.entry.specs.Numbers.{INVALID};
ghost use Rattle.entry.specs.Kinds.{state_number, tag_number, cycle_number};

use crate::numbers::{Cycle, State, Tag};
use std::marker::Model;

// A regular line has no tag: its tag is INVALID.
#[derive(Clone, Copy)]
pub struct Entry {
    pub state: State,
    pub tag: Tag,
    pub word: u8,
    pub data: u32,
}

impl Model for Entry {
    ghost use Rattle.std.specs.Prelude.{ℕ};
    ghost use Rattle.entry.specs.Copy.{Fields};

    ghost Value = { Fields };

    ghost use Rattle.entry.specs.Numbers.{INVALID};
    ghost use Rattle.entry.specs.Kinds.{fields_of, inside_of, inside_back};

    ghost view = { fields_of };

    ghost inverse = { inside_of };

    ghost inverse_ok = { λ a h. inside_back a };
}

impl Entry {
    // An invalid copy.
    pub fn none() -> Entry
        ensures { result ≡ no_entry }
    {
        Entry {
            state: State::Invalid,
            tag: Tag::Invalid,
            word: 0,
            data: 0,
        }
    }

    // A regular copy.
    pub fn regular(state: State, word: u8, data: u32) -> Entry
        ensures { result ≡ entry (state_number state) INVALID word «data» }
    {
        Entry {
            state,
            word,
            data,
            ..Entry::none()
        }
    }

    // No From: pack and unpack are the definitions' names, and not every number is a copy.
    pub fn unpack(x: u64) -> Entry
        ensures { result ≡ unpack x }
    {
        Entry {
            state: State::from((x / 4294967296 / 256 / 4 % 4) as u8),
            tag: packed::tag_of(x),
            word: (x / 4294967296 % 256) as u8,
            data: (x % 4294967296) as u32,
        }
    }

    pub fn pack(self) -> u64
        ensures { result ≡ pack self }
    {
        u64::from(self.data)
            + 4294967296
                * (u64::from(self.word) + 256 * (u64::from(self.tag) + 4 * u64::from(self.state)))
    }

    pub fn with_state(self, state: State) -> Entry
        ensures { result ≡ with_state self (state_number state) }
    {
        Entry { state, ..self }
    }

    pub fn with_tag(self, tag: Tag) -> Entry
        ensures { result ≡ with_tag self (tag_number tag) }
    {
        Entry { tag, ..self }
    }

    pub fn stored(self, value: u32) -> Entry
        ensures { result ≡ stored self value }
    {
        Entry {
            state: State::Dirty,
            data: value,
            ..self
        }
    }

    // What another processor's request leaves of a copy.
    pub fn snooped(self, cycle: Cycle) -> Entry
        ensures { result ≡ snooped (cycle_number cycle) self }
    {
        match cycle {
            Cycle::Read | Cycle::TRead => self.shared(),
            Cycle::Rfo | Cycle::Write | Cycle::TRfo => Entry::none(),
            Cycle::Other(_) => self,
        }
    }

    fn shared(self) -> Entry
        ensures { result ≡ shared self }
    {
        if self.state.is_reserved_or_dirty() {
            return self.with_state(State::Valid);
        }
        self
    }
}
