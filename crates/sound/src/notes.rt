// Scratch notes of where each copy stands and who owns each word.

ghost use Rattle.std.specs.Prelude.{◌≡◌};
ghost use Rattle.rules.specs.SoundTest.{mark_one, mark_all, own_one, own_all, is_owned, is_only, partner_place};
ghost use Rattle.sound.specs.Kind.{kind_number};

use crate::placed::{Kind, Placed};
use rules::Copies;

// Marks: for each processor, kind and word, the last place that has such a copy. A word has at most one copy of a kind exactly when every
// copy finds its own place there. Owners: for each word the processor, counted from 1, of the last copy RESERVED or DIRTY. No other processor
// has such a word exactly when every copy of it finds its own processor there. 0 is no mark, and no owner, as in `marks_of` and `owners_of`.
// Flat, at the places of the definition mark_key; there is no heap.
#[derive(Drop)]
pub(crate) struct Notes {
    pub marks: [u16; 4096],
    pub owners: [u8; 256],
}

impl Notes {
    pub(crate) fn note_all(&mut self, kind: Kind, copies: &Copies)
        ensures marks { self.new.marks ≡ mark_all (kind_number kind) copies.now self.old.marks }
        ensures owners { self.new.owners ≡ own_all copies.now self.old.owners }
    {
        for (j, x) in copies.iter().enumerate() {
            self.note_one(kind, *x, j);
        }
    }

    fn note_one(&mut self, kind: Kind, x: u64, j: usize)
        ensures mark { self.new.marks ≡ mark_one (kind_number kind) x j self.old.marks }
        ensures owner { self.new.owners ≡ own_one x j self.old.owners }
    {
        if x == 0 {
            return;
        }
        let at = Placed::new(kind, x, j);
        let e = at.copy;
        let k = at.mark_key();
        self.marks[k] = at.mark_value();
        if e.state.is_reserved_or_dirty() {
            self.owners[usize::from(at.word())] = at.owner();
        }
    }

    pub(crate) fn is_owned(&self, at: &Placed) -> bool
        ensures { result ≡ is_owned self.now.owners at.now.copy at.now.place }
    {
        let owner = self.owners[usize::from(at.word())];
        owner == 0 || owner == at.owner()
    }

    pub(crate) fn is_only(&self, at: &Placed) -> bool
        ensures { result ≡ is_only self.now.marks (kind_number at.now.kind) at.now.copy at.now.place }
    {
        let k = at.mark_key();
        self.marks[k] == at.mark_value()
    }

    // The place that the mark of a backup's word names: its tentative entry's, where it has one. 511 for no mark is partner_place's own.
    // k is no mark_key of at, which as a backup has 256 more.
    pub(crate) fn partner_place(&self, at: &Placed) -> usize
        ensures { result ≡ partner_place self.now.marks at.now.copy at.now.place }
    {
        let k = at.processor() % 8 * 512 + usize::from(at.word());
        (usize::from(self.marks[k]) / 2 + 511) % 512
    }
}
