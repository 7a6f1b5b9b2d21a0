// Records: where one ends, and its five fields.

ghost use Rattle.std.specs.Prelude.{◌≡◌, map, length, option_map};
ghost use Rattle.text.specs.Records.{record_end, cut_of, fields_of, record_of, numbered};

use crate::decimals::number_in;
use crate::marks::{COMMA, QUOTE_MARK};
use crate::names::step_of;
use entry::refusals::Refusal;
use entry::step::Step;

#[derive(Clone, Copy)]
pub struct Parsed {
    pub grant: u32,
    pub step: Step,
}

const RECORD_MOST: usize = 64;

// Where the record that starts at `from` ends: at its CRLF, or at the end of input.
// A place beside s and no slice: record_end has an answer for every place, and for one past the end that place itself.
pub fn record_end(s: &[u8], from: usize) -> usize
    ensures { result ≡ record_end s.now from }
{
    (from..s.len())
        .find(|i| s[*i..].starts_with(b"\r\n"))
        .unwrap_or(from.max(s.len()))
}

// The record of the bytes from `from` up to `end`, its CRLF not among them.
// Two places and no slice: record_of has an answer for every two, also where they are none of s.
// Document 01 names the form: a field's answer taken apart by let .. else, refusal 11 in the else.
pub fn read_record(s: &[u8], from: usize, end: usize) -> Result<Parsed, Refusal>
    ensures { numbered result ≡ record_of s.now from end }
{
    let Some(record) = s.get(from..end) else {
        return Err(Refusal::Malformed);
    };
    let Some(fields) = fields_of(record) else {
        return Err(Refusal::Malformed);
    };
    let [grant, core, op, word, value] = fields;
    let Some(grant) = number_in(grant) else {
        return Err(Refusal::Malformed);
    };
    let Some(core) = number_in(core) else {
        return Err(Refusal::Malformed);
    };
    let Some(word) = number_in(word) else {
        return Err(Refusal::Malformed);
    };
    let Some(value) = number_in(value) else {
        return Err(Refusal::Malformed);
    };
    let Some(op) = step_of(op) else {
        return Err(Refusal::NoSuchStep);
    };
    let step = Step {
        op,
        core: core as usize,
        word,
        value,
    };
    Ok(Parsed { grant, step })
}

// Four commas, so five fields, in at most 64 bytes, and no quote mark.
#[tactic(auto, unfolding(crate::specs::Records::fields_of))]
fn fields_of(record: &[u8]) -> Option<[&[u8]; 5]>
    ensures { option_map (map (λ f. f.now)) result ≡ fields_of record.now }
{
    if record.len() > RECORD_MOST || record.contains(&QUOTE_MARK) {
        return None;
    }
    let (grant, rest) = cut(record)?;
    let (core, rest) = cut(rest)?;
    let (op, rest) = cut(rest)?;
    let (word, value) = cut(rest)?;
    (!value.contains(&COMMA)).then_some([grant, core, op, word, value])
}

// What stands before the first comma, and what after it.
fn cut(text: &[u8]) -> Option<(&[u8], &[u8])>
    ensures { option_map (λ p. (p.0.now, p.1.now)) result ≡ cut_of text.now }
{
    let at = text.iter().position(|byte| *byte == COMMA)?;
    Some((&text[..at], &text[at + 1..]))
}
