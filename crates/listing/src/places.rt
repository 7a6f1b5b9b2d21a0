// Where a replay stands between two lines of its listing.

ghost use Rattle.std.specs.Prelude.{◌≡◌, ltb};
ghost use Rattle.entry.specs.Refusals.{accepted};
ghost use Rattle.listing.specs.Place.{first_place, with_phase, past, phase_at, first_phase, begin_at, begun_by};
ghost use Rattle.listing.specs.Phases.{NOTHING, phase_number, number_or};

use entry::refusals::Refusal;
use std::marker::Model;
use text::names::text_is;
use text::records::record_end;

// What the next line is, or that none is left.
#[derive(Clone, Copy, PartialEq, Eq)]
pub enum Phase {
    Header,
    Refusal,
    Record,
    End,
    Nothing,
}

// refused is the machine's refusal or the header's; at is where the next record begins, number the last record's; last is the grant of the
// last record that was taken.
#[derive(Clone, Copy)]
pub struct Place {
    pub phase: Phase,
    pub refused: Option<Refusal>,
    pub at: usize,
    pub number: u64,
    pub last: Option<u32>,
    pub commits: u64,
    pub cycles: u64,
}

impl Model for Place {
    ghost use Rattle.listing.specs.Standing.{Standing};

    ghost Value = { Standing };

    ghost use Rattle.listing.specs.Phases.{fields_of, inside_of, inside_back};

    ghost view = { fields_of };

    ghost inverse = { inside_of };

    ghost inverse_ok = { λ a h. inside_back a };
}

impl Place {
    pub(crate) fn with_phase(self, phase: Phase) -> Place
        ensures { result ≡ with_phase self (phase_number phase) }
    {
        Place { phase, ..self }
    }

    pub(crate) fn goes_on(self) -> bool
        ensures { result ≡ ltb self.phase NOTHING }
    {
        self.phase != Phase::Nothing
    }

    // The refusal's number, 0 where there is none: the definition do_other tells refused_by x.refusal.
    pub(crate) fn refusal(self) -> u8
        ensures { result ≡ self.refusal }
    {
        self.refused.map_or(0, u8::from)
    }
}

// Past a record's CRLF, if it has one. Text and place, here and in phase_at: the definitions past and phase_at answer for every place.
#[tactic(auto, unfolding(crate::specs::Place::past))]
pub(crate) fn past(s: &[u8], end: usize) -> usize
    ensures { result ≡ past s.now end }
{
    if end < s.len() {
        return end + 2;
    }
    end
}

#[tactic(auto, unfolding(crate::specs::Place::phase_at))]
pub(crate) fn phase_at(s: &[u8], at: usize) -> Phase
    ensures { phase_number result ≡ phase_at s.now at }
{
    if at < s.len() {
        return Phase::Record;
    }
    Phase::End
}

// What comes after the listing's own header.
#[tactic(auto, unfolding(crate::specs::Place::first_phase))]
pub(crate) fn first_phase(s: &[u8], x: Place) -> Phase
    ensures { phase_number result ≡ first_phase s.now x }
{
    if x.refused.is_some() {
        return Phase::Refusal;
    }
    phase_at(s, x.at)
}

pub(crate) fn first_place(refused: Option<Refusal>, at: usize) -> Place
    ensures { result ≡ first_place (number_or refused) at }
{
    Place {
        phase: Phase::Header,
        refused,
        at,
        number: 0,
        last: None,
        commits: 0,
        cycles: 0,
    }
}

// Where the first record begins.
#[tactic(auto, unfolding(crate::specs::Place::begin_at, crate::specs::Place::header_ok))]
fn header_end(s: &[u8]) -> Result<usize, Refusal>
    ensures { begun_by result ≡ begin_at s.now accepted }
{
    let end = record_end(s, 0);
    if !text_is(s, 0, end, b"grant,core,op,word,value") {
        return Err(Refusal::WrongHeader);
    }
    Ok(past(s, end))
}

// On a machine that was made.
pub(crate) fn begin_at(s: &[u8]) -> Place
    ensures { result ≡ begin_at s.now accepted }
{
    match header_end(s) {
        Ok(at) => first_place(None, at),
        Err(refusal) => first_place(Some(refusal), 0),
    }
}
