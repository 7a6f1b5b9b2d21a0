// Refusal 9: whether a state handed in is sound. Two passes leave scratch notes of where each copy stands and who owns each word; then
// every place is looked at once against the notes. Nothing is compared pair by pair. Tests are put together by `&`, which makes them all, as a
// sound state needs: so a contract is one equation, with no case for each test that fails.

#![tactic(auto)]

mod arrays;
mod copies;
pub mod dims;
mod entries;
mod lines;
mod notes;
mod placed;

ghost use Rattle.std.specs.Prelude.{◌≡◌};
ghost use Rattle.rules.specs.SoundTest.{copies_ok, sound_of};

use crate::arrays::{flags_ok, memory_ok};
use crate::copies::Test;
use crate::dims::dims_refusal;
use crate::notes::Notes;
use crate::placed::Kind;
use rules::{Caches, Dims};

// Of the definition's lengths each holds by the array's type.
pub fn sound(c: &Caches, d: Dims) -> bool
    ensures { result ≡ sound_of d c.now }
{
    dims_refusal(d).is_ok()
        & flags_ok(&c.flags, d.processors)
        & memory_ok(&c.memory, d.words)
        & copies_ok(c, d)
}

fn copies_ok(c: &Caches, d: Dims) -> bool
    ensures { result ≡ copies_ok d c.now }
{
    let mut notes = Notes {
        marks: [0; 4096],
        owners: [0; 256],
    };
    notes.note_all(Kind::Lines, &c.lines);
    notes.note_all(Kind::Entries, &c.entries);
    let test = Test {
        caches: c,
        dims: d,
        notes: &notes,
    };
    test.lines_ok() & test.entries_ok()
}
