// A packed copy as it stands in a cache: the questions that a search asks of it, each by one comparison, and what becomes of it where its
// tag alone changes.

ghost use Rattle.std.specs.Prelude.{◌≡◌, ◌/◌, ◌%◌, ◌≤◌, eqb, ltb};
ghost use Rattle.laws.specs.Choice.{pick, both};
ghost use Rattle.entry.specs.Numbers.{NORMAL, BACKUP};
ghost use Rattle.entry.specs.Packing.{no_entry, packed_end, pack, unpack};
ghost use Rattle.entry.specs.Entry.{with_tag, rolled_back, committed, is_entry, is_live};
ghost use Rattle.entry.specs.Kinds.{tag_number};

use crate::numbers::Tag;

pub fn tag_of(x: u64) -> Tag
    ensures { tag_number result ≡ (unpack x).tag }
{
    Tag::from((x / 4294967296 / 256 % 4) as u8)
}

// docs/PROMISES.md names it.
pub fn has_word(x: u64, word: u8) -> bool
    ensures { result ≡ eqb (unpack x).word word }
{
    x / 4294967296 % 256 == u64::from(word)
}

// An entry with the tag and the word. By one comparison, as is_live: has_word and then the tag made a run on 8/256/64/64 1.4 times as long.
pub fn is_entry(x: u64, tag: Tag, word: u8) -> bool
    ensures { result ≡ is_entry (unpack x) (tag_number tag) word }
{
    x / 4294967296 % 1024 == u64::from(tag) * 256 + u64::from(word)
}

// A NORMAL or tentative entry of the word.
pub fn is_live(x: u64, word: u8) -> bool
    ensures { result ≡ is_live (unpack x) word }
{
    x / 4294967296 % 512 == 256 + u64::from(word)
}

// An invalid or NORMAL entry, as most are, which no end of a transaction changes.
fn stays(x: u64) -> bool
    ensures { result ≡ both (eqb (x / 4294967296 / 512 % 2) 0) (ltb x packed_end) }
{
    x / 4294967296 / 512 % 2 == 0 && x < 17592186044416
}

// A backup or tentative copy whose tag is `gone` becomes invalid, one whose tag is `kept` NORMAL.
fn ended(x: u64, gone: Tag, kept: Tag) -> u64
    requires { (BACKUP ≤ tag_number gone) × (BACKUP ≤ tag_number kept) }
    ensures { let e = unpack x in
        result ≡ pack (pick (eqb e.tag (tag_number gone)) no_entry (pick (eqb e.tag (tag_number kept)) (with_tag e NORMAL) e)) }
{
    if stays(x) {
        return x;
    }
    let tag = tag_of(x);
    if tag == gone {
        return 0;
    }
    let whole = x % 17592186044416;
    if tag == kept {
        return whole - u64::from(tag) * 1099511627776 + 1099511627776;
    }
    whole
}

pub fn rolled_back(x: u64) -> u64
    ensures { result ≡ pack (rolled_back (unpack x)) }
{
    ended(x, Tag::Tentative, Tag::Backup)
}

pub fn committed(x: u64) -> u64
    ensures { result ≡ pack (committed (unpack x)) }
{
    ended(x, Tag::Backup, Tag::Tentative)
}
