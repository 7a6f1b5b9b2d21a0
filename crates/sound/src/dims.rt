// The machine's dimensions: refusals 1 to 4.

ghost use Rattle.std.specs.Prelude.{◌≡◌};
ghost use Rattle.entry.specs.Refusals.{refused_as};
ghost use Rattle.rules.specs.Making.{within, power_of_two, dims_refusal};

use entry::refusals::Refusal;
use rules::Dims;

fn in_range(n: usize, most: usize) -> bool
    ensures { result ≡ within n most }
{
    (1..=most).contains(&n)
}

// The seven are listed, as the definition power_of_two lists them. By `n <= 64 && n.is_power_of_two()`, as was tried, no proof was found.
fn is_power(n: usize) -> bool
    ensures { result ≡ power_of_two n }
{
    matches!(n, 1 | 2 | 4 | 8 | 16 | 32 | 64)
}

// Refusals read downwards, as in the definition.
#[tactic(auto, unfolding(rules::specs::Making::dims_refusal))]
pub fn dims_refusal(d: Dims) -> Result<(), Refusal>
    ensures { refused_as result ≡ dims_refusal d }
{
    if !in_range(d.processors, 8) {
        return Err(Refusal::BadProcessors);
    }
    if !in_range(d.words, 256) {
        return Err(Refusal::BadWords);
    }
    if !is_power(d.lines) {
        return Err(Refusal::BadLines);
    }
    if !in_range(d.entries, 64) {
        return Err(Refusal::BadEntries);
    }
    Ok(())
}
