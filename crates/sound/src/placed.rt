// A copy at its place. Place j is slot j % 64 of processor j / 64.

ghost use Rattle.std.specs.Prelude.{◌≡◌, ◌/◌, ◌%◌, ◌<◌, leb};
ghost use Rattle.entry.specs.Packing.{unpack};
ghost use Rattle.rules.specs.SoundTest.{mark_key, mark_value, owner_of, is_partner};
ghost use Rattle.sound.specs.Kind.{kind_number};

use entry::Entry;
use entry::numbers::Tag;

#[derive(Clone, Copy)]
pub(crate) enum Kind {
    Lines = 1,
    Entries = 2,
}

#[derive(Clone, Copy)]
pub(crate) struct Placed {
    pub kind: Kind,
    pub copy: Entry,
    pub place: usize,
}

impl Placed {
    pub(crate) fn new(kind: Kind, x: u64, place: usize) -> Placed
        ensures kind { result.kind ≡ kind }
        ensures copy { result.copy ≡ unpack x }
        ensures place { result.place ≡ place }
    {
        Placed {
            kind,
            copy: Entry::unpack(x),
            place,
        }
    }

    pub(crate) fn processor(&self) -> usize
        ensures { result ≡ self.now.place / 64 }
    {
        self.place / 64
    }

    pub(crate) fn slot(&self) -> usize
        ensures { result ≡ self.now.place % 64 }
    {
        self.place % 64
    }

    pub(crate) fn word(&self) -> u8
        ensures { result ≡ self.now.copy.word }
    {
        let e = self.copy;
        e.word
    }

    // Each processor has 512 marks: a word's regular, NORMAL or tentative copy, then its backup.
    pub(crate) fn mark_key(&self) -> usize
        ensures key { result ≡ mark_key self.now.copy self.now.place }
        ensures inside { result < 4096 }
    {
        let e = self.copy;
        let backup = if e.tag == Tag::Backup { 256 } else { 0 };
        self.processor() % 8 * 512 + backup + usize::from(self.word())
    }

    // Here and in owner by `as`: a remainder surely fits, and TryFrom would answer for a case that there is not.
    pub(crate) fn mark_value(&self) -> u16
        ensures { result ≡ mark_value (kind_number self.now.kind) self.now.place }
    {
        (self.place % 512) as u16 * 2 + self.kind as u16
    }

    pub(crate) fn owner(&self) -> u8
        ensures { result ≡ owner_of self.now.place }
    {
        (self.processor() % 8) as u8 + 1
    }

    pub(crate) fn is_partner(&self, other: &Placed) -> bool
        ensures { result ≡ is_partner self.now.copy self.now.place other.now.copy other.now.place }
    {
        let e = self.copy;
        let f = other.copy;
        (other.processor() == self.processor())
            & (f.tag == Tag::Tentative)
            & (f.word == e.word)
            & is_at_most(e, f)
    }
}

fn is_at_most(e: Entry, f: Entry) -> bool
    ensures { result ≡ leb e.state f.state }
{
    e.state <= f.state
}
