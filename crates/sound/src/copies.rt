// What is asked of every copy, of a line or an entry.

ghost use Rattle.std.specs.Prelude.{◌≡◌};
ghost use Rattle.rules.specs.SoundTest.{is_clean, copy_ok};
ghost use Rattle.sound.specs.Kind.{kind_number};

use crate::notes::Notes;
use crate::placed::Placed;
use entry::Entry;
use entry::numbers::State;
use rules::{Caches, Dims};

// What a place is looked at against: all the caches, their dimensions, and the notes taken of them.
// No Model: the definitions take memory, marks, owners and the rest one by one, and each contract says which.
#[derive(Clone, Copy)]
pub(crate) struct Test<'a> {
    pub caches: &'a Caches,
    pub dims: Dims,
    pub notes: &'a Notes,
}

impl Test<'_> {
    #[tactic(auto, unfolding(rules::specs::SoundTest::copy_ok))]
    pub(crate) fn copy_ok(&self, at: &Placed) -> bool
        ensures { let c = self.now.caches.now in let n = self.now.notes.now in
            result ≡ copy_ok c.memory n.marks n.owners self.now.dims.words (kind_number at.now.kind) at.now.copy at.now.place }
    {
        (usize::from(at.word()) < self.dims.words)
            & self.is_clean(at.copy)
            & self.notes.is_owned(at)
            & self.notes.is_only(at)
    }

    fn is_clean(&self, e: Entry) -> bool
        ensures { result ≡ is_clean self.now.caches.now.memory e }
    {
        e.state == State::Dirty || self.caches.word_at(e.word) == e.data
    }
}
