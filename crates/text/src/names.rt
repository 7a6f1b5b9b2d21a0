// Names: a text compared with a name, and the steps' names.

ghost use Rattle.std.specs.Prelude.{◌≡◌, length};
ghost use Rattle.text.specs.Names.{same_text, named_step};

// The steps' names in the order of their numbers.
static NAMES: [&[u8]; 9] = [
    b"LOAD",
    b"STORE",
    b"LT",
    b"LTX",
    b"ST",
    b"COMMIT",
    b"ABORT",
    b"VALIDATE",
    b"INTERRUPT",
];

// The bytes from `from` up to `end` are the name.
// Two places and no slice: same_text has an answer for every two, and reads 0 at a place past the end.
#[tactic(auto, unfolding(crate::specs::Names::same_text))]
pub fn text_is(s: &[u8], from: usize, end: usize, name: &[u8]) -> bool
    ensures { result ≡ same_text s.now from end name.now }
{
    end.checked_sub(from) == Some(name.len())
        && (from..end)
            .zip(name)
            .all(|(i, byte)| s.get(i).copied().unwrap_or(0) == *byte)
}

// The number of the step that a text names.
// A number and no Op: it becomes Step.op, which is one, since a number that is no step may be handed in there.
pub(crate) fn step_of(op: &[u8]) -> Option<u8>
    ensures { result ≡ named_step op.now 0 (length op.now) }
{
    let number = NAMES.iter().position(|name| op == *name)?;
    Some(number as u8)
}
