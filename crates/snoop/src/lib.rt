// What a request of processor p does to the others. Each other's entries are searched once: what deciding on the request finds is
// noted, and the snooping starts from there.
//
// At most 8 processors have places of their own, so that a turn of one leaves what was found of another. More are never made; there one's
// places are another's too, and nothing found lasts until a later turn.
//
// No type says at most 8: request and plain_request, of which docs/PROMISES.md speaks, keep their definitions on any dimensions.

#![tactic(auto)]

mod other;

ghost use Rattle.std.specs.Prelude.{◌≡◌, false, ◌≤◌, ◌<◌, None, get_or, length};
ghost use Rattle.laws.specs.Choice.{pick};
ghost use Rattle.entry.specs.Kinds.{cycle_number};
ghost use Rattle.rules.specs.Snoop.{snoop, refuses, roll_others, plain_request};
ghost use Rattle.snoop.specs.Firsts.{first_found, IsNoted};

use crate::other::Request;
use entry::numbers::Cycle;
use rules::{Caches, Dims};

// Where each processor's first entry stands that takes part. An array of 8, by processor: memory is fixed, there is no heap.
type Firsts = [Option<usize>; 8];

impl Request {
    // Whether another processor refuses the request. Where none does, the first entry of each is noted.
    #[tactic(auto, unfolding(rules::specs::Snoop::first_opposing, rules::specs::Snoop::refuses), using(crate::proofs::Turns::searched))]
    fn is_refused(&self, c: &Caches, firsts: &mut Firsts) -> bool
        requires { length firsts.old ≡ 8 }
        ensures value { let x = self.now in result ≡ refuses x.dims x.p x.word (cycle_number x.cycle) c.now.entries }
        ensures noted { let x = self.now in result ≡ false → IsNoted x.dims x.p x.word firsts.new c.now.entries x.dims.processors }
    {
        for q in 0..self.dims.processors {
            let first = self.first_of(c, q);
            if self.opposes_from(c, q, first) {
                return true;
            }
            firsts[q % 8] = first;
        }
        false
    }

    fn noted_or_found(&self, c: &Caches, firsts: &Firsts, q: usize) -> Option<usize>
        requires noted { let x = self.now in
            x.dims.processors ≤ 8 → get_or firsts.now q None ≡ first_found x.dims.entries x.p x.word c.now.entries q }
        requires q_lt_processors { q < self.now.dims.processors }
        ensures { let x = self.now in result ≡ first_found x.dims.entries x.p x.word c.now.entries q }
    {
        if self.dims.processors <= 8 {
            return firsts[q];
        }
        self.first_of(c, q)
    }

    #[tactic(auto, unfolding(rules::specs::Snoop::snoop), using(crate::proofs::Turns::turns, crate::proofs::Apart::snooped_left))]
    fn snoop(&self, c: &mut Caches, firsts: &Firsts)
        requires { let x = self.now in IsNoted x.dims x.p x.word firsts.now c.old.entries x.dims.processors }
        ensures { let x = self.now in c.new ≡ snoop x.dims x.p x.word (cycle_number x.cycle) c.old }
    {
        let home = self.dims.home(self.word);
        for q in 0..self.dims.processors {
            let first = self.noted_or_found(c, firsts, q);
            self.snoop_one(c, home, q, first);
        }
    }

    // Every other processor that opposes the request is rolled back.
    #[tactic(auto, unfolding(rules::specs::Snoop::roll_others), using(crate::proofs::Turns::turns))]
    fn roll_others(&self, c: &mut Caches)
        ensures { let x = self.now in c.new ≡ roll_others x.dims x.p x.word (cycle_number x.cycle) c.old }
    {
        for q in 0..self.dims.processors {
            self.roll_one(c, q);
        }
    }

    // Nobody's rollback meets what another's snooping leaves, so that each snoops at once.
    // Kept beside roll_others and snoop for its speed: by those two, the second over noted places, requests took 1.3 to 1.4 times as long.
    // A run of a random trace on 8/256/64/64 took 249 ns a step so and 276 by those two, in two builds of one day.
    #[tactic(auto, using(crate::proofs::Turns::turns, crate::proofs::Together::plain_together))]
    fn roll_and_snoop(&self, c: &mut Caches)
        requires { self.now.dims.processors ≤ 8 }
        ensures { let x = self.now in c.new ≡ plain_request x.dims x.p x.word (cycle_number x.cycle) c.old }
    {
        let home = self.dims.home(self.word);
        for q in 0..self.dims.processors {
            let first = self.roll_one(c, q);
            self.snoop_one(c, home, q, first);
        }
    }
}

// Answers whether another processor refuses the request of LT, LTX or ST. Where none does, the others have snooped it.
// The parameters, here and of plain_request, are the definitions', of which docs/PROMISES.md speaks: a Request is made inside.
pub fn request(c: &mut Caches, d: Dims, p: usize, word: u8, cycle: Cycle) -> bool
    ensures value { result ≡ refuses d p word (cycle_number cycle) c.old.entries }
    ensures left { c.new ≡ pick result c.old (snoop d p word (cycle_number cycle) c.old) }
{
    let r = Request {
        dims: d,
        p,
        word,
        cycle,
    };
    let mut firsts: Firsts = [None; 8];
    if r.is_refused(c, &mut firsts) {
        return true;
    }
    r.snoop(c, &firsts);
    false
}

// The cycle of a plain access, which nobody refuses.
#[tactic(auto, unfolding(rules::specs::Snoop::plain_request))]
pub fn plain_request(c: &mut Caches, d: Dims, p: usize, word: u8, cycle: Cycle)
    ensures { c.new ≡ plain_request d p word (cycle_number cycle) c.old }
{
    let r = Request {
        dims: d,
        p,
        word,
        cycle,
    };
    if d.processors <= 8 {
        r.roll_and_snoop(c);
        return;
    }
    r.roll_others(c);
    r.snoop(c, &[None; 8]);
}
