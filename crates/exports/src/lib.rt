// The machine for programs in C: one array of 2,048 numbers that the caller lends. include/stirnfeld.h declares these functions and says
// what every number means.

#![tactic(auto)]

mod array;
mod copying;
mod places;

ghost use Rattle.std.specs.Prelude.{◌≡◌};
ghost use Rattle.entry.specs.Step.{step};
ghost use Rattle.rules.specs.Making.{dims};
ghost use Rattle.runs.specs.Halting.{taken_of, ended_as};
ghost use Rattle.runs.specs.Lists.{step_lists, lists, SameSlices};
ghost use Rattle.exports.specs.Handed.{handed, make_in, sound_in, step_lent, step_in, run_lent, run_in, settle_in};

use crate::array::{UNREAD, dims_of, held_ok, machine_of, put_caches, put_machine, read_caches};
pub use crate::places::State;
use entry::refusals::{ACCEPTED, Refusal};
use rules::Dims;
use runs::{Columns, Halt, Steps};

// initial is the memory that the caller gives. What the array held before does not matter.
// Its parameters are those that C hands exports_c, under the names of include/stirnfeld.h.
#[tactic(auto, unfolding(crate::specs::Handed::make_in))]
pub fn stirnfeld_make(
    processors: usize,
    words: usize,
    lines: usize,
    entries: usize,
    initial: &[u32],
    state: &mut State,
) -> u8
    ensures { handed result state.new ≡ make_in (dims processors words lines entries) initial.now state.old }
{
    let dims = Dims {
        processors,
        words,
        lines,
        entries,
    };
    let m = match machine::make(dims, initial) {
        Ok(m) => m,
        Err(refused) => return refused.refusal.into(),
    };
    put_machine(state, &m);
    ACCEPTED
}

#[tactic(auto, unfolding(crate::specs::Handed::sound_in))]
pub fn stirnfeld_sound(state: &State) -> u8
    ensures { result ≡ sound_in state.now }
{
    if machine_of(state).is_ok_and(machine::sound) {
        return ACCEPTED;
    }
    Refusal::NotSound.into()
}

// How a run of n steps ended, in C's numbers: how many were taken, and the refusal.
fn in_numbers(n: usize, ended: Result<(), Halt>) -> (usize, u8)
    ensures { result ≡ (taken_of n ended, ended_as ended) }
{
    match ended {
        Ok(()) => (n, ACCEPTED),
        Err(halt) => (halt.taken, halt.refusal.into()),
    }
}

// The number of steps that were taken goes into taken; where the whole run is refused, 0. The machine is nowhere by value: its caches are copied
// out of the array, lent, and copied back.
pub fn stirnfeld_run(
    state: &mut State,
    steps: &Steps<'_>,
    columns: &mut Columns<'_>,
    taken: &mut usize,
) -> u8
    ensures same_slices { SameSlices columns.new columns.old }
    ensures run { handed result (run_lent taken.new state.new (lists columns.new)) ≡
        run_in state.old (step_lists steps.now) (lists columns.old) }
{
    if !held_ok(state) {
        *taken = 0;
        return Refusal::NotSound.into();
    }
    let mut c = UNREAD;
    read_caches(&mut c, state);
    let ended = runs::run_lent(&mut c, dims_of(state), steps, columns);
    let (count, refusal) = in_numbers(steps.ops.len(), ended);
    *taken = count;
    if count != 0 {
        put_caches(state, &c);
    }
    refusal
}

// told becomes the answer's number, its value, and the six counts. The step is a run of one place: so the library has one call of the machine's
// steps, and the compiler writes them out in the run's loop.
// Its parameters are those that C hands exports_c, under the names of include/stirnfeld.h.
pub fn stirnfeld_step(
    state: &mut State,
    op: u8,
    core: u8,
    word: u32,
    value: u32,
    told: &mut [u32; 8],
) -> u8
    ensures { handed result (step_lent state.new told.new) ≡ step_in state.old (step op core word value) told.old }
{
    let (mut answer, mut result) = ([0], [0]);
    let (mut read, mut rfo, mut write) = ([0], [0], [0]);
    let (mut t_read, mut t_rfo, mut busy) = ([0], [0], [0]);
    let steps = Steps {
        ops: &[op],
        cores: &[core],
        words: &[word],
        values: &[value],
    };
    let mut columns = Columns {
        answers: &mut answer,
        results: &mut result,
        read: &mut read,
        rfo: &mut rfo,
        write: &mut write,
        t_read: &mut t_read,
        t_rfo: &mut t_rfo,
        busy: &mut busy,
    };
    let mut taken = 0;
    let refusal = stirnfeld_run(state, &steps, &mut columns, &mut taken);
    if refusal != ACCEPTED {
        return refusal;
    }
    *told = [
        answer[0].into(),
        result[0],
        read[0],
        rfo[0],
        write[0],
        t_read[0],
        t_rfo[0],
        busy[0],
    ];
    ACCEPTED
}

// values becomes every word's settled value, and 0 past the words.
#[tactic(auto, unfolding(crate::specs::Handed::settle_in))]
pub fn stirnfeld_settle(state: &State, values: &mut [u32; 256]) -> u8
    ensures { handed result values.new ≡ settle_in state.now values.old }
{
    match machine_of(state).and_then(|m| machine::settle(m).map_err(|refused| refused.refusal)) {
        Ok(all) => {
            *values = all;
            ACCEPTED
        }
        Err(refusal) => refusal.into(),
    }
}
