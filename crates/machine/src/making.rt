// Making a machine: refusals 1 to 5, and the fresh state.

ghost use Rattle.std.specs.Prelude.{◌≡◌, ◌≤◌, length};
ghost use Rattle.entry.specs.Refusals.{refused_as};
ghost use Rattle.rules.specs.Making.{make_refusal, padded, fresh_flags, fresh};

use entry::refusals::Refusal;
use rules::{Caches, Dims, Flags, Memory};

#[tactic(auto, unfolding(rules::specs::Making::make_refusal))]
pub(crate) fn test(d: Dims, memory: &[u32]) -> Result<(), Refusal>
    ensures { refused_as result ≡ make_refusal d memory.now }
{
    sound::dims::dims_refusal(d)?;
    if memory.len() != d.words {
        return Err(Refusal::BadMemory);
    }
    Ok(())
}

fn fresh_memory(memory: &[u32]) -> Memory
    requires { length memory.now ≤ 256 }
    ensures { result ≡ padded 256 memory.now }
{
    let mut whole = [0u32; 256];
    whole[..memory.len()].copy_from_slice(memory);
    whole
}

// TSTATUS of each processor is up.
fn fresh_flags(processors: usize) -> Flags
    requires { processors ≤ 8 }
    ensures { result ≡ fresh_flags processors }
{
    let mut flags = [0u8; 16];
    flags[8..8 + processors].fill(1);
    flags
}

#[tactic(auto, unfolding(rules::specs::Making::fresh))]
pub(crate) fn fresh(d: Dims, memory: &[u32]) -> Caches
    requires { (length memory.now ≤ 256) × (d.processors ≤ 8) }
    ensures { result ≡ fresh d memory.now }
{
    Caches {
        memory: fresh_memory(memory),
        lines: [0; 512],
        entries: [0; 512],
        flags: fresh_flags(d.processors),
    }
}
