// LT, LTX and ST.

#![tactic(auto)]

ghost use Rattle.std.specs.Prelude.{◌≡◌, ℕ, eqb};
ghost use Rattle.laws.specs.Choice.{pick};
ghost use Rattle.entry.specs.Numbers.{VALID, RESERVED, LT};
ghost use Rattle.entry.specs.Kinds.{state_number, cycle_number, step_number};
ghost use Rattle.rules.specs.State.{outcome, counted};
ghost use Rattle.rules.specs.Transact.{drop_line, finish, request_of, busy, hit, open_normal};
ghost use Rattle.rules.specs.Transact.{request, miss_at, miss, seek, transact};
ghost use Rattle.caches.specs.Own.{below};

use caches::Own;
use entry::Entry;
use entry::answer::{Answer, Answered, Counts};
use entry::numbers::{Cycle, Op, State, Tag};
use rules::{Caches, Dims};

// What processor p asks for. An ST stores the value.
// No Model: the definitions take the four one by one, so that each contract would take a view of them apart just as it does the struct.
#[derive(Clone, Copy)]
struct Access {
    op: Op,
    p: usize,
    word: u8,
    value: u32,
}

impl Access {
    fn cycle(self) -> Cycle
        ensures { cycle_number result ≡ request_of (step_number self.op) }
    {
        match self.op {
            Op::Lt => Cycle::TRead,
            _ => Cycle::TRfo,
        }
    }

    // The state of both entries after a miss. A second match on LT: request_of and the definition fill choose apart, and hit needs neither.
    fn filled_state(self) -> State
        ensures { state_number result ≡ pick (eqb (step_number self.op) LT) VALID RESERVED }
    {
        match self.op {
            Op::Lt => State::Valid,
            _ => State::Reserved,
        }
    }
}

#[tactic(auto, unfolding(rules::specs::Transact::drop_line))]
fn drop_line(c: &mut Caches, d: Dims, a: Access) -> u8
    ensures { counted result c.new ≡ drop_line d a.p a.word c.old }
{
    let home = d.home(a.word);
    if caches::holds(c.line_at(a.p, home), a.word) {
        return caches::clear_line(c, a.p, home);
    }
    0
}

// ST or not is chosen here since the definition finish, sentence 5 of document 01, chooses here.
#[tactic(auto, unfolding(rules::specs::Transact::finish))]
fn finish(c: &mut Caches, a: Access, i: usize, counts: Counts) -> Answered
    ensures { outcome result c.new ≡ finish (step_number a.op) a.p i a.value counts c.old }
{
    let e = c.entry_at(a.p, i);
    if a.op == Op::St {
        c.put_entry(a.p, i, e.stored(a.value));
        return Answered {
            answer: Answer::Done,
            counts,
        };
    }
    Answered {
        answer: Answer::Value(e.data),
        counts,
    }
}

fn busy(c: &mut Caches, d: Dims, p: usize, cycle: Cycle, writes: u16) -> Answered
    ensures { outcome result c.new ≡ busy d p (cycle_number cycle) writes c.old }
{
    caches::rollback(c, d, p);
    Answered {
        answer: Answer::Aborted,
        counts: Counts::asked(cycle, writes, 1),
    }
}

// The definition's two counts come as their sum. LT or not is chosen here since the definition hit, sentence 3, chooses here.
#[tactic(auto, unfolding(rules::specs::Transact::hit))]
fn hit(c: &mut Caches, d: Dims, a: Access, i: usize, writes: u16) -> Answered
    ensures { outcome result c.new ≡ hit d (step_number a.op) a.p i a.word a.value writes 0 c.old }
{
    let e = c.entry_at(a.p, i);
    if a.op == Op::Lt || e.state != State::Valid {
        return finish(c, a, i, Counts::quiet(writes));
    }
    if snoop::request(c, d, a.p, a.word, Cycle::TRfo) {
        return busy(c, d, a.p, Cycle::TRfo, writes);
    }
    c.put_entry(a.p, i, e.with_state(State::Reserved));
    finish(c, a, i, Counts::asked(Cycle::TRfo, writes, 0))
}

#[tactic(auto, unfolding(rules::specs::Transact::open_normal))]
fn open_normal(c: &mut Caches, d: Dims, p: usize, i: usize) -> u8
    ensures { counted result c.new ≡ open_normal d p i c.old }
{
    let e = c.entry_at(p, i);
    let tentative = e.with_tag(Tag::Tentative);
    match caches::free_slot(c, d, p, i) {
        Some(b) => {
            let victim = c.entry_at(p, b);
            c.put_entry(p, b, e.with_tag(Tag::Backup));
            c.put_entry(p, i, tentative);
            caches::write_back(c, victim)
        }
        None => {
            let state = match e.state {
                State::Dirty => State::Reserved,
                state => state,
            };
            c.put_entry(p, i, tentative.with_state(state));
            caches::write_back(c, e)
        }
    }
}

// The backup, if there is one, has slot b. Where nobody refuses, both entries receive the data.
#[tactic(auto, unfolding(rules::specs::Transact::request, rules::specs::Transact::fill, rules::specs::Transact::fill_backup))]
fn request(
    c: &mut Caches,
    d: Dims,
    a: Access,
    i: usize,
    backup: Option<usize>,
    writes: u16,
) -> Answered
    ensures { (b : ℕ) → backup ≡ below d.entries b → outcome result c.new ≡
        request d (step_number a.op) a.p i b a.word a.value writes c.old }
{
    let cycle = a.cycle();
    if snoop::request(c, d, a.p, a.word, cycle) {
        return busy(c, d, a.p, cycle, writes);
    }
    let tentative = Entry {
        state: a.filled_state(),
        tag: Tag::Tentative,
        word: a.word,
        data: c.word_at(a.word),
    };
    c.put_entry(a.p, i, tentative);
    if let Some(b) = backup {
        c.put_entry(a.p, b, tentative.with_tag(Tag::Backup));
    }
    finish(c, a, i, Counts::asked(cycle, writes, 0))
}

// The backup's slot is cleared if there is one: plain's drop_normal, of a definition of its own, says why the match stands twice.
#[tactic(auto, unfolding(rules::specs::Transact::miss_at, rules::specs::Transact::clear_backup))]
fn miss_at(c: &mut Caches, d: Dims, a: Access, i: usize, writes: u8) -> Answered
    ensures { outcome result c.new ≡ miss_at d (step_number a.op) a.p i a.word a.value writes c.old }
{
    let of_entry = caches::clear_entry(c, a.p, i);
    let backup = caches::free_slot(c, d, a.p, i);
    let of_backup = match backup {
        Some(b) => caches::clear_entry(c, a.p, b),
        None => 0,
    };
    let all = u16::from(writes) + u16::from(of_entry) + u16::from(of_backup);
    request(c, d, a, i, backup, all)
}

#[tactic(auto, unfolding(rules::specs::Transact::miss))]
fn miss(c: &mut Caches, d: Dims, a: Access, writes: u8) -> Answered
    ensures { outcome result c.new ≡ miss d (step_number a.op) a.p a.word a.value writes c.old }
{
    match caches::free_slot(c, d, a.p, d.entries) {
        Some(i) => miss_at(c, d, a, i, writes),
        None => {
            caches::rollback(c, d, a.p);
            Answered {
                answer: Answer::Aborted,
                counts: Counts::quiet(writes.into()),
            }
        }
    }
}

#[tactic(auto, unfolding(rules::specs::Transact::seek, rules::specs::Transact::hit, caches::specs::Own::own_entry))]
fn seek(c: &mut Caches, d: Dims, a: Access, writes: u8) -> Answered
    ensures { outcome result c.new ≡ seek d (step_number a.op) a.p a.word a.value (counted writes c.old) }
{
    match caches::own_entry(c, d, a.p, a.word) {
        Own::Tentative(i) => hit(c, d, a, i, writes.into()),
        Own::Normal(i) => {
            let opened = open_normal(c, d, a.p, i);
            hit(c, d, a, i, u16::from(writes) + u16::from(opened))
        }
        Own::Nowhere => miss(c, d, a, writes),
    }
}

// Its parameters are the definition's, of which docs/PROMISES.md speaks: an Access is made inside. TACTIVE stands at active_place.
#[tactic(auto, unfolding(rules::specs::Transact::transact))]
pub fn transact(c: &mut Caches, d: Dims, op: Op, p: usize, word: u8, value: u32) -> Answered
    ensures { outcome result c.new ≡ transact d (step_number op) p word value c.old }
{
    c.flags[p % 8] = 1;
    if !c.is_status_up(p) {
        return Answered::quiet(Answer::Aborted);
    }
    let a = Access { op, p, word, value };
    let writes = drop_line(c, d, a);
    seek(c, d, a, writes)
}
