// COMMIT, ABORT, VALIDATE and INTERRUPT.

ghost use Rattle.std.specs.Prelude.{◌≡◌};
ghost use Rattle.rules.specs.State.{outcome};
ghost use Rattle.rules.specs.Rollback.{ended};
ghost use Rattle.rules.specs.Ends.{commit, abort, validate, interrupt};

use entry::answer::{Answer, Answered};
use rules::{Caches, Dims};

// TACTIVE of p becomes false, TSTATUS true: their flags stand at the definitions active_place and status_place, as C's array has them.
fn end(c: &mut Caches, p: usize)
    ensures { c.new ≡ ended p c.old }
{
    c.flags[p % 8] = 0;
    c.flags[8 + p % 8] = 1;
}

#[tactic(auto, unfolding(rules::specs::Ends::commit))]
pub(crate) fn commit(c: &mut Caches, d: Dims, p: usize) -> Answered
    ensures { outcome result c.new ≡ commit d p c.old }
{
    if !c.is_status_up(p) {
        end(c, p);
        return Answered::quiet(Answer::Failure);
    }
    caches::commit_entries(c, d, p);
    end(c, p);
    Answered::quiet(Answer::Success)
}

#[tactic(auto, unfolding(rules::specs::Ends::abort))]
pub(crate) fn abort(c: &mut Caches, d: Dims, p: usize) -> Answered
    ensures { outcome result c.new ≡ abort d p c.old }
{
    caches::rollback(c, d, p);
    end(c, p);
    Answered::quiet(Answer::Done)
}

#[tactic(auto, unfolding(rules::specs::Ends::validate))]
pub(crate) fn validate(c: &mut Caches, p: usize) -> Answered
    ensures { outcome result c.new ≡ validate p c.old }
{
    if !c.is_status_up(p) {
        end(c, p);
        return Answered::quiet(Answer::False);
    }
    Answered::quiet(Answer::True)
}

#[tactic(auto, unfolding(rules::specs::Ends::interrupt))]
pub(crate) fn interrupt(c: &mut Caches, d: Dims, p: usize) -> Answered
    ensures { outcome result c.new ≡ interrupt d p c.old }
{
    caches::rollback(c, d, p);
    Answered::quiet(Answer::Done)
}
