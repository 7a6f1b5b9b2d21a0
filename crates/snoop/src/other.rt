// What one other processor, q, does at a request.

ghost use Rattle.std.specs.Prelude.{◌≡◌, ◌≢◌};
ghost use Rattle.laws.specs.Choice.{either};
ghost use Rattle.entry.specs.Entry.{reserved_or_dirty, takes};
ghost use Rattle.entry.specs.Kinds.{cycle_number};
ghost use Rattle.rules.specs.Own.{live_entry};
ghost use Rattle.rules.specs.Snoop.{snoop_line, snoop_entry, snoop_one, opposes, other_opposes, roll_one};
ghost use Rattle.caches.specs.Own.{below};
ghost use Rattle.snoop.specs.Firsts.{first_found};

use entry::Entry;
use entry::numbers::{Cycle, Tag};
use rules::{Caches, Dims};

// Processor p's request of a word.
#[derive(Clone, Copy)]
pub(crate) struct Request {
    pub(crate) dims: Dims,
    pub(crate) p: usize,
    pub(crate) word: u8,
    pub(crate) cycle: Cycle,
}

impl Request {
    // The first entry of q that takes part; p itself has none.
    #[tactic(auto, unfolding(crate::specs::Firsts::first_of))]
    pub(crate) fn first_of(&self, c: &Caches, q: usize) -> Option<usize>
        ensures { let x = self.now in result ≡ first_found x.dims.entries x.p x.word c.now.entries q }
    {
        if q == self.p {
            return None;
        }
        caches::live_entry(c, self.dims, q, self.word)
    }

    // Whether a tentative copy of the word stands against the request.
    fn is_against(&self, e: Entry) -> bool
        ensures { result ≡ either (takes (cycle_number self.now.cycle)) (reserved_or_dirty e.state) }
    {
        self.cycle.takes() || e.state.is_reserved_or_dirty()
    }

    #[tactic(auto, unfolding(rules::specs::Snoop::opposes))]
    fn opposes(&self, c: &Caches, q: usize) -> bool
        ensures { let x = self.now in result ≡ opposes x.dims x.word (cycle_number x.cycle) q c.now.entries }
    {
        match caches::find_entry(c, self.dims, q, Tag::Tentative, self.word) {
            Some(i) => self.is_against(c.entry_at(q, i)),
            None => false,
        }
    }

    // No tentative entry stands before the first NORMAL or tentative one. Behind a NORMAL one there is none in a sound state.
    // q and first come apart, and contracts say first_found: a type that kept that fact would have to hold the caches, and they change.
    #[tactic(auto, using(crate::proofs::Firsts::none_opposes, crate::proofs::Firsts::some_opposes, crate::proofs::Firsts::first_opposes))]
    pub(crate) fn opposes_from(&self, c: &Caches, q: usize, first: Option<usize>) -> bool
        requires { let x = self.now in first ≡ first_found x.dims.entries x.p x.word c.now.entries q }
        ensures { let x = self.now in result ≡ other_opposes x.dims x.p x.word (cycle_number x.cycle) c.now.entries q }
    {
        let Some(i) = first else {
            return false;
        };
        let e = c.entry_at(q, i);
        if e.tag != Tag::Tentative {
            return self.opposes(c, q);
        }
        self.is_against(e)
    }

    // Answers where q's first entry stands afterwards. Written out in both loops that call it: as a call, plain accesses among few entries took a
    // tenth longer, for what it saves on the stack.
    #[tactic(auto, unfolding(rules::specs::Snoop::roll_one))]
    #[inline(always)]
    pub(crate) fn roll_one(&self, c: &mut Caches, q: usize) -> Option<usize>
        ensures rolled { let x = self.now in c.new ≡ roll_one x.dims x.p x.word (cycle_number x.cycle) q c.old }
        ensures value { let x = self.now in result ≡ first_found x.dims.entries x.p x.word c.new.entries q }
    {
        let first = self.first_of(c, q);
        if self.opposes_from(c, q, first) {
            caches::rollback(c, self.dims, q);
            return self.first_of(c, q);
        }
        first
    }

    #[tactic(auto, unfolding(rules::specs::Snoop::snoop_line))]
    fn snoop_line(&self, c: &mut Caches, home: usize, q: usize)
        ensures { c.new ≡ snoop_line home self.now.word (cycle_number self.now.cycle) q c.old }
    {
        let e = c.line_at(q, home);
        if caches::holds(e, self.word) {
            caches::write_back(c, e);
            c.put_line(q, home, e.snooped(self.cycle));
        }
    }

    #[tactic(auto, unfolding(rules::specs::Snoop::snoop_entry))]
    fn snoop_entry(&self, c: &mut Caches, q: usize, first: Option<usize>)
        requires { let x = self.now in first ≡ below x.dims.entries (live_entry c.old.entries q x.dims.entries x.word) }
        ensures { let x = self.now in c.new ≡ snoop_entry x.dims x.word (cycle_number x.cycle) q c.old }
    {
        if let Some(i) = first {
            let e = c.entry_at(q, i);
            caches::write_back(c, e);
            c.put_entry(q, i, e.snooped(self.cycle));
        }
    }

    // Written out in both loops that call it: as a call, requests took 1.2 times as long.
    #[tactic(auto, unfolding(rules::specs::Snoop::snoop_one, crate::specs::Firsts::first_of), using(crate::proofs::Apart::line_entries))]
    #[inline]
    pub(crate) fn snoop_one(&self, c: &mut Caches, home: usize, q: usize, first: Option<usize>)
        requires { let x = self.now in first ≡ first_found x.dims.entries x.p x.word c.old.entries q }
        ensures { let x = self.now in c.new ≡ snoop_one x.dims home x.p x.word (cycle_number x.cycle) q c.old }
    {
        if q == self.p {
            return;
        }
        self.snoop_line(c, home, q);
        self.snoop_entry(c, q, first);
    }
}
