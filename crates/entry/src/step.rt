// One step: what a processor asks for.

ghost use Rattle.std.specs.Prelude.{◌≡◌};
ghost use Rattle.entry.specs.Step.{uses_word};

use crate::numbers::Op;

// op is a number: one that is no step may be handed in, and is refusal 6. numbers::Op has those that there are.
#[derive(Clone, Copy)]
pub struct Step {
    pub op: u8,
    pub core: usize,
    pub word: u32,
    pub value: u32,
}

// Of any number: one that is no step's uses none.
pub fn uses_word(op: u8) -> bool
    ensures { result ≡ uses_word op }
{
    Op::from(op).uses_word()
}
