// The lines of a listing one after the other, as many as surely fit the buffer.

ghost use Rattle.std.specs.Prelude.{◌≡◌};
ghost use Rattle.listing.specs.Listing.{going, fills, fills_page, wrote_on, do_record, do_other, do_line, fill_of};
ghost use Rattle.listing.specs.Page.{HasRoom, SameBuffer};

use crate::lines::{write_answer, write_end, write_header};
use crate::page::Page;
use crate::places::{Phase, Place, first_phase};
use crate::records::{answer_of, look_at, place_after};
use entry::answer::Answered;
use rules::{Caches, Dims};

// Where the replay stands, and how much of the buffer is written.
// A Piece is this with the machine: a type generic in what stands there would show its users a parameter for this one use.
#[derive(Clone, Copy)]
pub struct Reached {
    pub place: Place,
    pub used: usize,
}

// Five parameters, here and below: look_at, answer_of and do_other take a part each, so a struct of them would be taken apart in every one.
fn do_record(s: &[u8], page: &mut Page<'_>, c: &mut Caches, d: Dims, x: Place) -> Place
    requires { HasRoom page.old }
    ensures same_buffer { SameBuffer page.new page.old }
    ensures line { fills_page result c.new page.new ≡ wrote_on (do_record s.now d x c.old) page.old }
{
    let l = look_at(s, x);
    let told = answer_of(c, d, l);
    write_answer(page, x.number.saturating_add(1), told);
    place_after(s, x, l, told)
}

// The header, a refusal before any record, or the end.
fn do_other(s: &[u8], page: &mut Page<'_>, c: &Caches, x: Place) -> Place
    requires { HasRoom page.old }
    ensures same_buffer { SameBuffer page.new page.old }
    ensures line { fills_page result c.now page.new ≡ wrote_on (do_other s.now x c.now) page.old }
{
    match x.phase {
        Phase::Header => {
            write_header(page);
            x.with_phase(first_phase(s, x))
        }
        Phase::Refusal => {
            write_answer(page, 0, Answered::refused(x.refusal()));
            x.with_phase(Phase::End)
        }
        _ => {
            write_end(page, x.commits, x.cycles);
            x.with_phase(Phase::Nothing)
        }
    }
}

// Matched on the phase here and in do_other since the definitions do_line and do_other choose so.
#[tactic(auto, unfolding(crate::specs::Listing::do_line))]
fn do_line(s: &[u8], page: &mut Page<'_>, c: &mut Caches, d: Dims, x: Place) -> Place
    requires { HasRoom page.old }
    ensures same_buffer { SameBuffer page.new page.old }
    ensures line { fills_page result c.new page.new ≡ wrote_on (do_line s.now d x c.old) page.old }
{
    match x.phase {
        Phase::Record => do_record(s, page, c, d, x),
        _ => do_other(s, page, c, x),
    }
}

pub(crate) fn fill(s: &[u8], out: &mut [u8], c: &mut Caches, d: Dims, first: Place) -> Reached
    ensures { fills result c.new out.new ≡ fill_of s.now d (going first c.old) out.old }
{
    let mut x = first;
    let mut page = Page {
        bytes: out,
        used: 0,
    };
    'lines: while x.goes_on() && page.has_room() {
        x = do_line(s, &mut page, c, d, x);
    }
    Reached {
        place: x,
        used: page.used,
    }
}
