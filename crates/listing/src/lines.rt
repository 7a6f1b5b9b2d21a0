// The listing's lines, written where a line surely fits.

ghost use Rattle.std.specs.Prelude.{◌≡◌};
ghost use Rattle.text.specs.Writing.{put_of};
ghost use Rattle.listing.specs.Lines.{name_field, printed, answer_line, end_line, header_line};
ghost use Rattle.listing.specs.Page.{held, HasRoom, SameBuffer};

use crate::page::Page;
use entry::answer::{Answer, Answered};

// An answer's name, between the two commas that stand around it.
fn name_field(answer: Answer) -> &'static [u8]
    ensures { result.now ≡ name_field answer }
{
    match answer {
        Answer::Value(_) => b",VALUE,",
        Answer::Done => b",DONE,",
        Answer::Success => b",SUCCESS,",
        Answer::Failure => b",FAILURE,",
        Answer::True => b",TRUE,",
        Answer::False => b",FALSE,",
        Answer::Aborted => b",ABORTED,",
        Answer::Refused(_) => b",REFUSED,",
    }
}

// A refusal shows its number, every other answer its value.
fn printed(answer: Answer) -> u64
    ensures { result ≡ printed answer }
{
    match answer {
        Answer::Value(value) => value.into(),
        Answer::Refused(number) => number.into(),
        _ => 0,
    }
}

// HasRoom is asked and is no type's invariant: it holds before a line and need not after it.
// No Display: it would write these same pieces to a Formatter, and a Page would need a Write that promises put_of, beside put_bytes.
pub(crate) fn write_answer(page: &mut Page<'_>, number: u64, told: Answered)
    requires { HasRoom page.old }
    ensures same_buffer { SameBuffer page.new page.old }
    ensures value { held page.new ≡ put_of (answer_line number told) (held page.old) }
{
    page.put_number(number);
    page.put_bytes(name_field(told.answer));
    page.put_number(printed(told.answer));
    page.put_bytes(b",");
    page.put_number(told.counts.cycles());
    page.put_bytes(b"\r\n");
}

pub(crate) fn write_end(page: &mut Page<'_>, commits: u64, cycles: u64)
    requires { HasRoom page.old }
    ensures same_buffer { SameBuffer page.new page.old }
    ensures value { held page.new ≡ put_of (end_line commits cycles) (held page.old) }
{
    page.put_bytes(b"END,COMMITTED,");
    page.put_number(commits);
    page.put_bytes(b",");
    page.put_number(cycles);
    page.put_bytes(b"\r\n");
}

pub(crate) fn write_header(page: &mut Page<'_>)
    ensures same_buffer { SameBuffer page.new page.old }
    ensures value { held page.new ≡ put_of header_line (held page.old) }
{
    page.put_bytes(b"record,answer,value,bus\r\n");
}
