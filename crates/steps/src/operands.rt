// Whether a step's operands are refused: 7, then 8.

ghost use Rattle.std.specs.Prelude.{◌≡◌};
ghost use Rattle.entry.specs.Kinds.{step_number};
ghost use Rattle.entry.specs.Refusals.{refused_as};
ghost use Rattle.rules.specs.Step.{operands_refusal};

use entry::numbers::Op;
use entry::refusals::Refusal;
use entry::step::Step;
use rules::Dims;

// op is the step's. A field that a step does not use is ignored. A word goes by `as`: usize has no From of a u32.
#[tactic(auto, unfolding(rules::specs::Step::operands_refusal))]
pub(crate) fn test(d: Dims, op: Op, step: Step) -> Result<(), Refusal>
    requires { step.op ≡ step_number op }
    ensures { refused_as result ≡ operands_refusal d step }
{
    if step.core >= d.processors {
        return Err(Refusal::NoSuchProcessor);
    }
    if op.uses_word() && step.word as usize >= d.words {
        return Err(Refusal::NoSuchWord);
    }
    Ok(())
}
