// The published run: a trace in columns, from a machine by value or on its caches, lent. Inside, nothing that holds an array goes by value.

#![tactic(auto)]

mod columns;
mod running;

ghost use Rattle.std.specs.Prelude.{◌≡◌};
ghost use Rattle.rules.specs.State.{machine_of};
ghost use Rattle.rules.specs.Run.{carried, run_of};
ghost use Rattle.runs.specs.Halting.{left_by, halted};
ghost use Rattle.runs.specs.Lists.{step_lists, lists, SameSlices};

pub use crate::columns::{Columns, Steps};
pub use crate::running::Halt;
use entry::refusals::Refusal;
use rules::{Caches, Dims, Machine};

// Refused by 9 or 10 it leaves all as it was; stopped by a step, what the steps before that reached.
#[tactic(auto, unfolding(rules::specs::Run::run_of))]
pub fn run_lent(
    c: &mut Caches,
    d: Dims,
    steps: &Steps<'_>,
    columns: &mut Columns<'_>,
) -> Result<(), Halt>
    ensures same_slices { SameSlices columns.new columns.old }
    ensures run { let x = step_lists steps.now in
        halted d x result (carried c.new (lists columns.new)) ≡ run_of (machine_of d c.old) x (lists columns.old) }
{
    if !sound::sound(c, d) {
        return Err(Halt {
            taken: 0,
            refusal: Refusal::NotSound,
        });
    }
    if !columns.fit(steps) {
        return Err(Halt {
            taken: 0,
            refusal: Refusal::BadColumns,
        });
    }
    running::run_sound(c, d, steps, columns)
}

// How a run ended, and the machine then.
#[derive(Clone, Copy)]
pub struct Ran {
    pub ended: Result<(), Halt>,
    pub machine: Machine,
}

pub fn run(mut m: Machine, steps: &Steps<'_>, columns: &mut Columns<'_>) -> Ran
    ensures same_slices { SameSlices columns.new columns.old }
    ensures run { let x = step_lists steps.now in
        left_by x result (lists columns.new) ≡ run_of m x (lists columns.old) }
{
    let ended = run_lent(&mut m.caches, m.dims, steps, columns);
    Ran { ended, machine: m }
}
