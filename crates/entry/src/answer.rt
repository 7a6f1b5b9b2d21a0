// What a step tells: an answer and six cycle counts.

ghost use Rattle.std.specs.Prelude.{◌≡◌, ◌+◌};
ghost use Rattle.entry.specs.Answer.{answer_number, answer_value, refusal_number, is_refusal};
ghost use Rattle.entry.specs.Answer.{quiet, asked, cycles_of, answered, no_cycles, refused_by};
ghost use Rattle.entry.specs.declared.answer.Answer.TheVariants.{Refused};
ghost use Rattle.entry.specs.Kinds.{cycle_number};
ghost use Rattle.entry.specs.Refusals.{number_of};

use crate::numbers::Cycle;
use crate::refusals::Refusal;

// A refusal is its number here: definitions compute it as one (refused_by, take_step), and Took, of demand 3, compares it.
#[derive(Clone, Copy)]
pub enum Answer {
    Value(u32),
    Done,
    Success,
    Failure,
    True,
    False,
    Aborted,
    Refused(u8),
}

#[derive(Clone, Copy)]
pub struct Counts {
    pub read: u32,
    pub rfo: u32,
    pub write: u32,
    pub t_read: u32,
    pub t_rfo: u32,
    pub busy: u32,
}

// Every answer carries six cycle counts.
#[derive(Clone, Copy)]
pub struct Answered {
    pub answer: Answer,
    pub counts: Counts,
}

impl Answer {
    // The number that a column holds: answer_number.
    pub fn number(self) -> u8
        ensures { result ≡ answer_number self }
    {
        match self {
            Answer::Value(_) => 0,
            Answer::Done => 1,
            Answer::Success => 2,
            Answer::Failure => 3,
            Answer::True => 4,
            Answer::False => 5,
            Answer::Aborted => 6,
            Answer::Refused(_) => 7,
        }
    }

    // 0 where the answer is none of a load.
    pub fn value(self) -> u32
        ensures { result ≡ answer_value self }
    {
        match self {
            Answer::Value(value) => value,
            _ => 0,
        }
    }

    // 0 where the answer is no refusal: refusal_number, which a column holds too.
    pub fn refusal(self) -> u8
        ensures { result ≡ refusal_number self }
    {
        match self {
            Answer::Refused(number) => number,
            _ => 0,
        }
    }

    pub fn is_refusal(self) -> bool
        ensures { result ≡ is_refusal self }
    {
        matches!(self, Answer::Refused(_))
    }
}

impl Answered {
    pub fn quiet(answer: Answer) -> Answered
        ensures { result ≡ answered answer no_cycles }
    {
        Answered {
            answer,
            counts: Counts::quiet(0),
        }
    }

    // A refusal gives its number, and zero counts. Promised for every number: refused_by.
    pub fn refused(number: u8) -> Answered
        ensures { result ≡ refused_by number }
    {
        Answered::quiet(Answer::Refused(number))
    }
}

impl From<Refusal> for Answer {
    ghost from_gives = { λ refusal answer. answer ≡ Refused (number_of refusal) };

    fn from(refusal: Refusal) -> Answer {
        Answer::Refused(refusal.into())
    }
}

impl From<Refusal> for Answered {
    ghost from_gives = { λ refusal told. told ≡ refused_by (number_of refusal) };

    fn from(refusal: Refusal) -> Answered {
        Answered::quiet(refusal.into())
    }
}

impl Counts {
    // w copies written back, each a WRITE, and no request.
    pub fn quiet(w: u16) -> Counts
        ensures { result ≡ quiet w }
    {
        Counts {
            read: 0,
            rfo: 0,
            write: w.into(),
            t_read: 0,
            t_rfo: 0,
            busy: 0,
        }
    }

    // w copies written back, one request, and how many BUSY it met.
    pub fn asked(cycle: Cycle, w: u16, busy: u32) -> Counts
        ensures { result ≡ asked (cycle_number cycle) w busy }
    {
        Counts {
            read: (cycle == Cycle::Read).into(),
            rfo: (cycle == Cycle::Rfo).into(),
            write: u32::from(w) + u32::from(cycle == Cycle::Write),
            t_read: (cycle == Cycle::TRead).into(),
            t_rfo: (cycle == Cycle::TRfo).into(),
            busy,
        }
    }

    // The sum of the six counts.
    pub fn cycles(self) -> u64
        ensures { result ≡ cycles_of self }
    {
        u64::from(self.read)
            + u64::from(self.rfo)
            + u64::from(self.write)
            + u64::from(self.t_read)
            + u64::from(self.t_rfo)
            + u64::from(self.busy)
    }
}
