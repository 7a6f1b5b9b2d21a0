// Every regular line.

ghost use Rattle.std.specs.Prelude.{◌≡◌, ◌%◌};
ghost use Rattle.rules.specs.SoundTest.{is_home, line_ok, lines_ok};

use crate::copies::Test;
use crate::placed::{Kind, Placed};
use entry::numbers::{State, Tag};

impl Test<'_> {
    // entries_ok is the like: one function would be handed the array and the test, and each call be as long as this body.
    pub(crate) fn lines_ok(&self) -> bool
        ensures { let c = self.now.caches.now in let n = self.now.notes.now in
            result ≡ lines_ok c.memory n.marks n.owners self.now.dims c.lines }
    {
        let lines = &self.caches.lines;
        lines.iter().enumerate().all(|(j, x)| self.line_ok(*x, j))
    }

    // What entry_ok shares with it, but for copy_ok, stands between tests that differ: taken out, it would leave the definitions' order.
    #[tactic(auto, unfolding(rules::specs::SoundTest::line_ok))]
    fn line_ok(&self, x: u64, j: usize) -> bool
        ensures { let c = self.now.caches.now in let n = self.now.notes.now in
            result ≡ line_ok c.memory n.marks n.owners self.now.dims x j }
    {
        if x == 0 {
            return true;
        }
        let at = Placed::new(Kind::Lines, x, j);
        let e = at.copy;
        (at.processor() < self.dims.processors)
            & (at.slot() < self.dims.lines)
            & (e.pack() == x)
            & (e.tag == Tag::Invalid)
            & (e.state != State::Invalid)
            & self.is_home(&at)
            & self.copy_ok(&at)
    }

    #[tactic(auto, unfolding(rules::specs::SoundTest::is_home, rules::specs::Own::home))]
    fn is_home(&self, at: &Placed) -> bool
        ensures { result ≡ is_home self.now.dims at.now.copy (at.now.place % 64) }
    {
        self.dims.home(at.word()) == at.slot()
    }
}
