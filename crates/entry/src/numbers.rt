// The kinds that document 01 names, each in the order of its numbers. Functions over them are promised for every byte (docs/PROMISES.md): Other is
// one that no copy, request or step has, by how far it lies above the last that has a name.

ghost use Rattle.std.specs.Prelude.{◌≡◌};
ghost use Rattle.entry.specs.Kinds.{state_number, tag_number, cycle_number, step_number};
ghost use Rattle.entry.specs.Entry.{reserved_or_dirty, takes};
ghost use Rattle.entry.specs.Step.{uses_word};

// Line states (the paper's Figure 2), ascending.
#[derive(Clone, Copy, PartialEq, Eq, PartialOrd, Ord)]
pub enum State {
    Invalid,
    Valid,
    Reserved,
    Dirty,
    Other(u8),
}

impl From<u8> for State {
    ghost from_gives = { λ number kind. state_number kind ≡ number };

    fn from(number: u8) -> State {
        match number {
            0 => State::Invalid,
            1 => State::Valid,
            2 => State::Reserved,
            3 => State::Dirty,
            _ => State::Other(number - 4),
        }
    }
}

impl From<State> for u64 {
    ghost from_gives = { λ kind number. number ≡ state_number kind };

    fn from(kind: State) -> u64 {
        match kind {
            State::Invalid => 0,
            State::Valid => 1,
            State::Reserved => 2,
            State::Dirty => 3,
            State::Other(more) => 4 + u64::from(more),
        }
    }
}

impl State {
    // The states above VALID.
    pub fn is_reserved_or_dirty(self) -> bool
        ensures { result ≡ reserved_or_dirty (state_number self) }
    {
        !matches!(self, State::Invalid | State::Valid)
    }
}

// Transactional tags (Figure 3): its COMMIT entry is a backup, its ABORT entry tentative.
#[derive(Clone, Copy, PartialEq, Eq)]
pub enum Tag {
    Invalid,
    Normal,
    Backup,
    Tentative,
    Other(u8),
}

impl From<u8> for Tag {
    ghost from_gives = { λ number kind. tag_number kind ≡ number };

    fn from(number: u8) -> Tag {
        match number {
            0 => Tag::Invalid,
            1 => Tag::Normal,
            2 => Tag::Backup,
            3 => Tag::Tentative,
            _ => Tag::Other(number - 4),
        }
    }
}

impl From<Tag> for u64 {
    ghost from_gives = { λ kind number. number ≡ tag_number kind };

    fn from(kind: Tag) -> u64 {
        match kind {
            Tag::Invalid => 0,
            Tag::Normal => 1,
            Tag::Backup => 2,
            Tag::Tentative => 3,
            Tag::Other(more) => 4 + u64::from(more),
        }
    }
}

// Steps, as Step.op holds them.
pub const LOAD: u8 = 0;

pub const STORE: u8 = 1;

pub const LT: u8 = 2;

pub const LTX: u8 = 3;

pub const ST: u8 = 4;

pub const COMMIT: u8 = 5;

pub const ABORT: u8 = 6;

pub const VALIDATE: u8 = 7;

pub const INTERRUPT: u8 = 8;

// Document 01 names the form in which these numbers are matched on: an arm for each, a range for what is none.
#[derive(Clone, Copy, PartialEq, Eq)]
pub enum Op {
    Load,
    Store,
    Lt,
    Ltx,
    St,
    Commit,
    Abort,
    Validate,
    Interrupt,
    Other(u8),
}

impl From<u8> for Op {
    ghost from_gives = { λ number kind. step_number kind ≡ number };

    fn from(number: u8) -> Op {
        match number {
            LOAD => Op::Load,
            STORE => Op::Store,
            LT => Op::Lt,
            LTX => Op::Ltx,
            ST => Op::St,
            COMMIT => Op::Commit,
            ABORT => Op::Abort,
            VALIDATE => Op::Validate,
            INTERRUPT => Op::Interrupt,
            9..=255 => Op::Other(number - 9),
        }
    }
}

impl Op {
    pub fn uses_word(self) -> bool
        ensures { result ≡ uses_word (step_number self) }
    {
        matches!(self, Op::Load | Op::Store | Op::Lt | Op::Ltx | Op::St)
    }
}

// Request cycles, in the order of the six counts; the sixth count is BUSY's.
#[derive(Clone, Copy, PartialEq, Eq)]
pub enum Cycle {
    Read,
    Rfo,
    Write,
    TRead,
    TRfo,
    Other(u8),
}

impl From<u8> for Cycle {
    ghost from_gives = { λ number kind. cycle_number kind ≡ number };

    fn from(number: u8) -> Cycle {
        match number {
            0 => Cycle::Read,
            1 => Cycle::Rfo,
            2 => Cycle::Write,
            3 => Cycle::TRead,
            4 => Cycle::TRfo,
            _ => Cycle::Other(number - 5),
        }
    }
}

impl Cycle {
    // Whether it leaves no other copy.
    pub fn takes(self) -> bool
        ensures { result ≡ takes (cycle_number self) }
    {
        matches!(self, Cycle::Rfo | Cycle::Write | Cycle::TRfo)
    }
}
