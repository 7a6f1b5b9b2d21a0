// One record: looked at, answered by the machine, and left behind.

ghost use Rattle.std.specs.Prelude.{◌≡◌};
ghost use Rattle.entry.specs.Refusals.{refused_as};
ghost use Rattle.rules.specs.State.{outcome};
ghost use Rattle.text.specs.Records.{numbered};
ghost use Rattle.listing.specs.Phases.{phase_number};
ghost use Rattle.listing.specs.Records.{rises, grant_refusal, read_of, looked_by, look_at, answer_of};
ghost use Rattle.listing.specs.Records.{is_success, phase_after, last_after, place_after};

use crate::places::{Phase, Place, past, phase_at};
use entry::answer::{Answer, Answered};
use entry::refusals::Refusal;
use rules::{Caches, Dims};
use text::records::{Parsed, read_record, record_end};

// The record that holds the byte after these is too long.
const BYTES_MOST: usize = 4194304;

// Where the next record begins, and the fields of this one.
// No Model: looked_by differs from it in a refusal's number alone, and a Model would need an inverse and its proof besides.
#[derive(Clone, Copy)]
pub struct Looked {
    pub next: usize,
    pub fields: Result<Parsed, Refusal>,
}

#[tactic(auto, unfolding(crate::specs::Records::rises))]
fn rises(x: Place, grant: u32) -> bool
    ensures { result ≡ rises x grant }
{
    x.last.is_none_or(|last| last < grant)
}

#[tactic(auto, unfolding(crate::specs::Records::grant_refusal))]
fn test_grant(x: Place, grant: u32) -> Result<(), Refusal>
    ensures { refused_as result ≡ grant_refusal x grant }
{
    if !rises(x, grant) {
        return Err(Refusal::NotRising);
    }
    Ok(())
}

// The record at a place, which ends at `end`.
#[tactic(auto, unfolding(crate::specs::Records::read_of))]
fn read(s: &[u8], x: Place, end: usize) -> Result<Parsed, Refusal>
    ensures { numbered result ≡ read_of s.now x end }
{
    if past(s, end) > BYTES_MOST {
        return Err(Refusal::TooLong);
    }
    let fields = read_record(s, x.at, end)?;
    test_grant(x, fields.grant)?;
    Ok(fields)
}

#[tactic(auto, unfolding(crate::specs::Records::look_at))]
pub(crate) fn look_at(s: &[u8], x: Place) -> Looked
    ensures { looked_by result ≡ look_at s.now x }
{
    let end = record_end(s, x.at);
    Looked {
        next: past(s, end),
        fields: read(s, x, end),
    }
}

// A refused record changes nothing.
#[tactic(auto, unfolding(crate::specs::Records::answer_of))]
pub(crate) fn answer_of(c: &mut Caches, d: Dims, l: Looked) -> Answered
    ensures { outcome result c.new ≡ answer_of d (looked_by l) c.old }
{
    match l.fields {
        Ok(fields) => steps::take_step(c, d, fields.step),
        Err(refusal) => refusal.into(),
    }
}

fn successes(answer: Answer) -> u64
    ensures { result ≡ is_success answer }
{
    matches!(answer, Answer::Success).into()
}

#[tactic(auto, unfolding(crate::specs::Records::phase_after))]
fn phase_after(s: &[u8], l: Looked) -> Phase
    ensures { phase_number result ≡ phase_after s.now (looked_by l) }
{
    if let Err(Refusal::TooLong) = l.fields {
        return Phase::End;
    }
    phase_at(s, l.next)
}

// Counts stand still at the largest number.
#[tactic(auto, unfolding(crate::specs::Records::place_after))]
pub(crate) fn place_after(s: &[u8], x: Place, l: Looked, told: Answered) -> Place
    ensures { result ≡ place_after s.now x (looked_by l) told }
{
    Place {
        phase: phase_after(s, l),
        at: l.next,
        number: x.number.saturating_add(1),
        last: last_after(x, l, told.answer),
        commits: x.commits.saturating_add(successes(told.answer)),
        cycles: x.cycles.saturating_add(told.counts.cycles()),
        ..x
    }
}

// The grant of the last record that was taken: of this one, unless its answer is a refusal. The definition reads that from the refusal's
// number, which is 0 where there is none.
#[tactic(auto, unfolding(crate::specs::Records::last_after))]
fn last_after(x: Place, l: Looked, answer: Answer) -> Option<u32>
    ensures { result ≡ last_after x (looked_by l) answer }
{
    match l.fields {
        Ok(fields) if answer.refusal() == 0 => Some(fields.grant),
        _ => x.last,
    }
}
