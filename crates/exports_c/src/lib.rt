// What programs in C call: each function of the library exports under its own name, with the same promise. include/stirnfeld.h declares
// them and says what every number means.

#![tactic(auto)]

ghost use Rattle.std.specs.Prelude.{◌≡◌};
ghost use Rattle.entry.specs.Step.{step};
ghost use Rattle.rules.specs.Making.{dims};
ghost use Rattle.rules.specs.Lent.{lent_steps, columns_of};
ghost use Rattle.exports.specs.Handed.{handed, make_in, sound_in, step_lent, step_in, run_lent, run_in, settle_in};

use exports::State;
use runs::{Columns, Steps};

// C hands each number by itself: include/stirnfeld.h names them.
#[unsafe(no_mangle)]
pub extern "C" fn stirnfeld_make(
    processors: usize,
    words: usize,
    lines: usize,
    entries: usize,
    initial: &[u32],
    state: &mut State,
) -> u8
    ensures { handed result state.new ≡ make_in (dims processors words lines entries) initial.now state.old }
{
    exports::stirnfeld_make(processors, words, lines, entries, initial, state)
}

#[unsafe(no_mangle)]
pub extern "C" fn stirnfeld_sound(state: &State) -> u8
    ensures { result ≡ sound_in state.now }
{
    exports::stirnfeld_sound(state)
}

// C lends each column by itself: include/stirnfeld.h names them.
#[unsafe(no_mangle)]
pub extern "C" fn stirnfeld_run(
    state: &mut State,
    ops: &[u8],
    cores: &[u8],
    used_words: &[u32],
    values: &[u32],
    answers: &mut [u8],
    results: &mut [u32],
    reads: &mut [u32],
    rfos: &mut [u32],
    writes: &mut [u32],
    t_reads: &mut [u32],
    t_rfos: &mut [u32],
    busies: &mut [u32],
    taken: &mut usize,
) -> u8
    ensures { let c = columns_of answers results reads rfos writes t_reads t_rfos busies in
        handed result (run_lent taken.new state.new c.exit) ≡
        run_in state.old (lent_steps ops cores used_words values) c.entry }
{
    let steps = Steps {
        ops,
        cores,
        words: used_words,
        values,
    };
    let mut columns = Columns {
        answers,
        results,
        read: reads,
        rfo: rfos,
        write: writes,
        t_read: t_reads,
        t_rfo: t_rfos,
        busy: busies,
    };
    exports::stirnfeld_run(state, &steps, &mut columns, taken)
}

// C hands the step's four numbers, each by itself: include/stirnfeld.h names them.
#[unsafe(no_mangle)]
pub extern "C" fn stirnfeld_step(
    state: &mut State,
    op: u8,
    core: u8,
    word: u32,
    value: u32,
    told: &mut [u32; 8],
) -> u8
    ensures { handed result (step_lent state.new told.new) ≡ step_in state.old (step op core word value) told.old }
{
    exports::stirnfeld_step(state, op, core, word, value, told)
}

#[unsafe(no_mangle)]
pub extern "C" fn stirnfeld_settle(state: &State, values: &mut [u32; 256]) -> u8
    ensures { handed result values.new ≡ settle_in state.now values.old }
{
    exports::stirnfeld_settle(state, values)
}
