// A trace in columns, and the lent columns of what its steps answer. The same place of each is one step.
// They are parallel columns because C lends them so, in include/stirnfeld.h, and document 01 speaks of columns.

ghost use Rattle.std.specs.Prelude.{◌≡◌, eqb, leb, length};
ghost use Rattle.rules.specs.Run.{step_at, written, columns_ok};
ghost use Rattle.runs.specs.Lists.{step_lists, lists, SameSlices};
ghost use Rattle.runs.specs.Within.{InSteps, InColumns};

use entry::answer::Answered;
use entry::step::Step;

#[derive(Clone, Copy)]
pub struct Steps<'a> {
    pub ops: &'a [u8],
    pub cores: &'a [u8],
    pub words: &'a [u32],
    pub values: &'a [u32],
}

// An answer's number, its value, and its six counts.
#[derive(Drop)]
pub struct Columns<'a> {
    pub answers: &'a mut [u8],
    pub results: &'a mut [u32],
    pub read: &'a mut [u32],
    pub rfo: &'a mut [u32],
    pub write: &'a mut [u32],
    pub t_read: &'a mut [u32],
    pub t_rfo: &'a mut [u32],
    pub busy: &'a mut [u32],
}

const MOST_STEPS: usize = 65536;

impl Steps<'_> {
    pub(crate) fn len(&self) -> usize
        ensures { result ≡ length self.now.ops.now }
    {
        self.ops.len()
    }

    pub(crate) fn step_at(&self, i: usize) -> Step
        requires { InSteps (step_lists self.now) i }
        ensures { result ≡ step_at (step_lists self.now) i }
    {
        Step {
            op: self.ops[i],
            core: usize::from(self.cores[i]),
            word: self.words[i],
            value: self.values[i],
        }
    }
}

impl Columns<'_> {
    // They and the steps have one length, at most 65,536.
    pub(crate) fn fit(&self, steps: &Steps<'_>) -> bool
        ensures { result ≡ columns_ok (step_lists steps.now) (lists self.now) }
    {
        let n = steps.len();
        let lengths = [
            steps.cores.len(),
            steps.words.len(),
            steps.values.len(),
            self.answers.len(),
            self.results.len(),
            self.read.len(),
            self.rfo.len(),
            self.write.len(),
            self.t_read.len(),
            self.t_rfo.len(),
            self.busy.len(),
        ];
        n <= MOST_STEPS && lengths.iter().all(|length| *length == n)
    }

    pub(crate) fn write(&mut self, i: usize, told: Answered)
        requires { InColumns (lists self.old) i }
        ensures same_slices { SameSlices self.new self.old }
        ensures written { lists self.new ≡ written (lists self.old) i told }
    {
        self.answers[i] = told.answer.number();
        self.results[i] = told.answer.value();
        self.read[i] = told.counts.read;
        self.rfo[i] = told.counts.rfo;
        self.write[i] = told.counts.write;
        self.t_read[i] = told.counts.t_read;
        self.t_rfo[i] = told.counts.t_rfo;
        self.busy[i] = told.counts.busy;
    }
}
