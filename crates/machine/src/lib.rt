// The published machine: made, tested, asked and stepped by value. Inside, nothing that holds an array goes by value.

#![tactic(auto)]

mod making;
mod settling;

ghost use Rattle.std.specs.Prelude.{◌≡◌};
ghost use Rattle.rules.specs.State.{caches_of};
ghost use Rattle.rules.specs.Making.{smallest, make_of, made_by};
ghost use Rattle.rules.specs.SoundTest.{sound_of};
ghost use Rattle.rules.specs.Step.{step_of, settled_of, settle_of, settled_by};

use entry::answer::{Answer, Answered};
use entry::refusals::Refusal;
use entry::step::Step;
use rules::{Dims, Machine, Memory, NotMade, NotSettled, Stepped, narrowed};

// A refused making hands back the smallest machine.
#[tactic(auto, unfolding(rules::specs::Making::make_of))]
pub fn make(dims: Dims, memory: &[u32]) -> Result<Machine, NotMade>
    ensures { made_by result ≡ make_of dims memory.now }
{
    if let Err(refusal) = making::test(dims, memory) {
        return Err(NotMade {
            refusal,
            machine: smallest(),
        });
    }
    Ok(Machine {
        dims,
        caches: making::fresh(dims, memory),
    })
}

// The smallest machine, with memory zero: what a caller has in place of one that was refused.
pub fn smallest() -> Machine
    ensures { result ≡ smallest }
{
    let dims = Dims {
        processors: 1,
        words: 1,
        lines: 1,
        entries: 1,
    };
    Machine {
        dims,
        caches: making::fresh(dims, &[0]),
    }
}

pub fn sound(m: Machine) -> bool
    ensures { result ≡ sound_of m.dims (caches_of m) }
{
    sound::sound(&m.caches, m.dims)
}

#[tactic(auto, unfolding(rules::specs::Step::settled_of))]
pub fn settled(m: Machine, word: u32) -> Answer
    ensures { result ≡ settled_of m word }
{
    if !sound(m) {
        return Refusal::NotSound.into();
    }
    if word as usize >= m.dims.words {
        return Refusal::NoSuchWord.into();
    }
    Answer::Value(settling::settled_in(&m.caches, m.dims, narrowed(word)))
}

// Every word's settled value in one call.
#[tactic(auto, unfolding(rules::specs::Step::settle_of))]
pub fn settle(m: Machine) -> Result<Memory, NotSettled>
    ensures { settled_by result ≡ settle_of m }
{
    if !sound(m) {
        return Err(NotSettled {
            refusal: Refusal::NotSound,
            values: [0; 256],
        });
    }
    Ok(settling::settled_all(&m.caches, m.dims))
}

// A refused step hands the machine back as it was.
#[tactic(auto, unfolding(rules::specs::Step::step_of))]
pub fn step(mut m: Machine, step: Step) -> Stepped
    ensures { result ≡ step_of m step }
{
    if !sound(m) {
        return Stepped {
            told: Refusal::NotSound.into(),
            machine: m,
        };
    }
    let told = steps::take_step(&mut m.caches, m.dims, step);
    Stepped { told, machine: m }
}
