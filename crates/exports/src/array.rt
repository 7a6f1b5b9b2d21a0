// The machine that the array holds: tested, taken out of it, put into it.

ghost use Rattle.std.specs.Prelude.{◌≡◌, true, leb};
ghost use Rattle.std.specs.List.{list_all};
ghost use Rattle.entry.specs.declared.refusals.Refusal.TheVariants.{NotSound};
ghost use Rattle.entry.specs.Refusals.{unless};
ghost use Rattle.rules.specs.State.{caches_of};
ghost use Rattle.exports.specs.Array.{held_ok, dims_in, machine_in, with_parts, array_of};

use crate::copying::{copy_by, put_copies};
use crate::places::{
    ENTRIES_END, ENTRIES_FROM, FLAGS_END, FLAGS_FROM, LINES_FROM, MEMORY_FROM, State,
};
use entry::refusals::Refusal;
use rules::{Caches, Dims, Machine};

// What is read into.
pub(crate) const UNREAD: Caches = Caches {
    memory: [0; 256],
    lines: [0; 512],
    entries: [0; 512],
    flags: [0; 16],
};

fn none_above(most: u64, places: &[u64]) -> bool
    ensures { result ≡ list_all (λ place. leb place most) places.now }
{
    places.iter().all(|place| *place <= most)
}

// The definitions speak of lists, which have any length; an array has its own by type.
pub(crate) fn held_ok(state: &State) -> bool
    ensures { result ≡ held_ok state.now }
{
    none_above(0, &state[4..FLAGS_FROM])
        & none_above(1, &state[FLAGS_FROM..FLAGS_END])
        & none_above(0, &state[FLAGS_END..MEMORY_FROM])
        & none_above(4294967295, &state[MEMORY_FROM..LINES_FROM])
        & none_above(0, &state[ENTRIES_END..])
}

// By `as`: the array, the C interface, holds 64-bit numbers, and neither From nor Into joins u64 and usize.
pub(crate) fn dims_of(state: &State) -> Dims
    ensures { result ≡ dims_in state.now }
{
    Dims {
        processors: state[0] as usize,
        words: state[1] as usize,
        lines: state[2] as usize,
        entries: state[3] as usize,
    }
}

// In place: caches that are handed back by value are copied twice more, a fifth of the time of a run of one step. Written out in machine_of it
// costs a copy of the machine, too.
#[inline(never)]
pub(crate) fn read_caches(c: &mut Caches, state: &State)
    requires { held_ok state.now ≡ true }
    ensures { c.new ≡ caches_of (machine_in state.now) }
{
    copy_by(
        &state[MEMORY_FROM..LINES_FROM],
        &mut c.memory,
        |place| place as u32,
    );
    copy_by(&state[LINES_FROM..ENTRIES_FROM], &mut c.lines, |copy| copy);
    copy_by(
        &state[ENTRIES_FROM..ENTRIES_END],
        &mut c.entries,
        |copy| copy,
    );
    copy_by(
        &state[FLAGS_FROM..FLAGS_END],
        &mut c.flags,
        |place| place as u8,
    );
}

pub(crate) fn caches_of(state: &State) -> Caches
    requires { held_ok state.now ≡ true }
    ensures { result ≡ caches_of (machine_in state.now) }
{
    let mut c = UNREAD;
    read_caches(&mut c, state);
    c
}

// An array that holds no machine is no sound state.
#[tactic(auto, unfolding(crate::specs::Array::machine_in))]
pub(crate) fn machine_of(state: &State) -> Result<Machine, Refusal>
    ensures { result ≡ unless (held_ok state.now) (Err NotSound) (Ok (machine_in state.now)) }
{
    if !held_ok(state) {
        return Err(Refusal::NotSound);
    }
    Ok(Machine {
        dims: dims_of(state),
        caches: caches_of(state),
    })
}

pub(crate) fn put_caches(state: &mut State, c: &Caches)
    ensures { state.new ≡ with_parts state.old c.now }
{
    copy_by(&c.flags, &mut state[FLAGS_FROM..FLAGS_END], u64::from);
    copy_by(&c.memory, &mut state[MEMORY_FROM..LINES_FROM], u64::from);
    put_copies(&c.lines, &mut state[LINES_FROM..ENTRIES_FROM]);
    put_copies(&c.entries, &mut state[ENTRIES_FROM..ENTRIES_END]);
}

// By `as`, as in dims_of: the array, the C interface, holds 64-bit numbers, and From has nothing from usize to u64.
#[tactic(auto, unfolding(crate::specs::Array::array_of, crate::specs::Array::blank))]
pub(crate) fn put_machine(state: &mut State, m: &Machine)
    ensures { state.new ≡ array_of m.now }
{
    *state = [0; 2048];
    state[0] = m.dims.processors as u64;
    state[1] = m.dims.words as u64;
    state[2] = m.dims.lines as u64;
    state[3] = m.dims.entries as u64;
    put_caches(state, &m.caches);
}
