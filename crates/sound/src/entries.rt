// Every transactional entry.

ghost use Rattle.std.specs.Prelude.{◌≡◌};
ghost use Rattle.rules.specs.SoundTest.{flags_up, backup_ok, entry_ok, entries_ok};

use crate::copies::Test;
use crate::placed::{Kind, Placed};
use entry::numbers::{State, Tag};

impl Test<'_> {
    pub(crate) fn entries_ok(&self) -> bool
        ensures { let c = self.now.caches.now in let n = self.now.notes.now in
            result ≡ entries_ok c.memory n.marks n.owners c.flags self.now.dims c.entries }
    {
        let entries = &self.caches.entries;
        entries
            .iter()
            .enumerate()
            .all(|(j, x)| self.entry_ok(*x, j))
    }

    #[tactic(auto, unfolding(rules::specs::SoundTest::entry_ok))]
    fn entry_ok(&self, x: u64, j: usize) -> bool
        ensures { let c = self.now.caches.now in let n = self.now.notes.now in
            result ≡ entry_ok c.memory n.marks n.owners c.entries c.flags self.now.dims x j }
    {
        if x == 0 {
            return true;
        }
        let at = Placed::new(Kind::Entries, x, j);
        let e = at.copy;
        (at.processor() < self.dims.processors)
            & (at.slot() < self.dims.entries)
            & (e.pack() == x)
            & (e.tag != Tag::Invalid)
            & (e.state != State::Invalid)
            & self.flags_up(&at)
            & self.backup_ok(&at)
            & self.copy_ok(&at)
    }

    // TACTIVE and TSTATUS, at the definitions active_place and status_place.
    #[tactic(auto, unfolding(rules::specs::SoundTest::flags_up))]
    fn flags_up(&self, at: &Placed) -> bool
        ensures { result ≡ flags_up self.now.caches.now.flags at.now.copy at.now.place }
    {
        let e = at.copy;
        let flags = &self.caches.flags;
        let active = at.processor() % 8;
        e.tag != Tag::Tentative || (flags[active] == 1) & (flags[8 + active] == 1)
    }

    #[tactic(auto, unfolding(rules::specs::SoundTest::backup_ok))]
    fn backup_ok(&self, at: &Placed) -> bool
        ensures { let c = self.now.caches.now in
            result ≡ backup_ok self.now.notes.now.marks c.entries at.now.copy at.now.place }
    {
        let e = at.copy;
        if e.tag != Tag::Backup {
            return true;
        }
        // Whether the tentative entry stands at the place that is noted is tested, not trusted.
        let k = self.notes.partner_place(at);
        at.is_partner(&Placed::new(Kind::Entries, self.caches.entries[k], k))
    }
}
