// The flags, and memory past the words.

ghost use Rattle.std.specs.Prelude.{◌≡◌, ◌%◌, eqb, ltb, leb};
ghost use Rattle.laws.specs.Choice.{pick};
ghost use Rattle.rules.specs.SoundTest.{flags_ok, memory_ok};

use rules::{Flags, Memory};

// flags beside processors, and below memory beside words: the definitions flags_ok and memory_ok take just these two.
pub(crate) fn flags_ok(flags: &Flags, processors: usize) -> bool
    ensures { result ≡ flags_ok flags.now processors }
{
    flags
        .iter()
        .enumerate()
        .all(|(j, flag)| flag_ok(*flag, processors, j))
}

// A flag is 0 or 1, and 0 past the processors.
fn flag_ok(flag: u8, processors: usize, j: usize) -> bool
    ensures { result ≡ pick (ltb (j % 8) processors) (leb flag 1) (eqb flag 0) }
{
    if j % 8 < processors {
        flag <= 1
    } else {
        flag == 0
    }
}

// Memory past the words is 0, and there are no more words than it has.
pub(crate) fn memory_ok(memory: &Memory, words: usize) -> bool
    ensures { result ≡ memory_ok memory.now words }
{
    (words <= 256) && memory[words..].iter().all(|word| *word == 0)
}
