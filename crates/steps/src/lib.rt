// The steps by their numbers, on the caches that are lent, and which of them are refused.

#![tactic(auto)]

mod ends;
mod operands;

ghost use Rattle.std.specs.Prelude.{◌≡◌, false, IfOk};
ghost use Rattle.entry.specs.Answer.{told_as, is_refusal};
ghost use Rattle.rules.specs.State.{outcome};
ghost use Rattle.rules.specs.Step.{take_step};

use entry::answer::Answered;
use entry::numbers::Op;
use entry::refusals::Refusal;
use entry::step::Step;
use rules::{Caches, Dims, narrowed};

// A refused step leaves the caches as they were.
pub fn take_step(c: &mut Caches, d: Dims, step: Step) -> Answered
    ensures { outcome result c.new ≡ take_step d step c.old }
{
    answer(c, d, step).unwrap_or_else(Answered::from)
}

// Refusals 6, 7 and 8, then the instruction, which refuses nothing. Document 01 names the form: an arm for each instruction. LT, LTX and ST meet
// after the match, and nothing else does: then the compiler writes transact out in a run's loop.
#[tactic(auto, unfolding(rules::specs::Step::take_step))]
pub fn answer(c: &mut Caches, d: Dims, step: Step) -> Result<Answered, Refusal>
    ensures told { outcome (told_as result) c.new ≡ take_step d step c.old }
    ensures unrefused { IfOk result (λ told. is_refusal told.answer ≡ false) }
{
    let op = Op::from(step.op);
    if !matches!(op, Op::Other(_)) {
        operands::test(d, op, step)?;
    }
    let p = step.core;
    let word = narrowed(step.word);
    let told = match op {
        Op::Load => return Ok(plain::load(c, d, p, word)),
        Op::Store => return Ok(plain::store(c, d, p, word, step.value)),
        Op::Lt => transact::transact(c, d, op, p, word, step.value),
        Op::Ltx => transact::transact(c, d, op, p, word, step.value),
        Op::St => transact::transact(c, d, op, p, word, step.value),
        Op::Commit => return Ok(ends::commit(c, d, p)),
        Op::Abort => return Ok(ends::abort(c, d, p)),
        Op::Validate => return Ok(ends::validate(c, p)),
        Op::Interrupt => return Ok(ends::interrupt(c, d, p)),
        Op::Other(_) => return Err(Refusal::NoSuchStep),
    };
    Ok(told)
}
