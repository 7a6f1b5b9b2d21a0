// A run's loop on the lent caches, from a sound state.

ghost use Rattle.std.specs.Prelude.{◌≡◌, true};
ghost use Rattle.rules.specs.Run.{columns_ok, carried, run_sound};
ghost use Rattle.runs.specs.Halting.{halted};
ghost use Rattle.runs.specs.Lists.{step_lists, lists, SameSlices};

use crate::columns::{Columns, Steps};
use entry::refusals::Refusal;
use rules::{Caches, Dims};

// A refusal, and how many steps were taken before it.
#[derive(Clone, Copy)]
pub struct Halt {
    pub taken: usize,
    pub refusal: Refusal,
}

pub(crate) fn run_sound(
    c: &mut Caches,
    d: Dims,
    steps: &Steps<'_>,
    columns: &mut Columns<'_>,
) -> Result<(), Halt>
    requires { columns_ok (step_lists steps.now) (lists columns.old) ≡ true }
    ensures same_slices { SameSlices columns.new columns.old }
    ensures run { let x = step_lists steps.now in
        halted d x result (carried c.new (lists columns.new)) ≡ run_sound d x c.old (lists columns.old) }
{
    for i in 0..steps.len() {
        match steps::answer(c, d, steps.step_at(i)) {
            Ok(told) => columns.write(i, told),
            Err(refusal) => return Err(Halt { taken: i, refusal }),
        }
    }
    Ok(())
}
