// A lent buffer, written from its front on.

ghost use Rattle.std.specs.Prelude.{◌≡◌, ◌+◌, leb, length};
ghost use Rattle.text.specs.Writing.{put_of, decimal};
ghost use Rattle.listing.specs.Lines.{most_line};
ghost use Rattle.listing.specs.Page.{held, SameBuffer};

use text::writing;

// No line is longer.
const LINE_MOST: usize = 72;

// The first used bytes are written. No Cursor: one writes what fits of a text, the definition put_of the whole or nothing.
// SameBuffer in the contracts: who is lent a Page could put another buffer into it, and the lender's would stay unwritten.
#[derive(Drop)]
pub(crate) struct Page<'a> {
    pub(crate) bytes: &'a mut [u8],
    pub(crate) used: usize,
}

impl Page<'_> {
    // Whether a line surely fits.
    pub(crate) fn has_room(&self) -> bool
        ensures { result ≡ leb (self.now.used + most_line) (length self.now.bytes.now) }
    {
        LINE_MOST <= self.bytes.len().saturating_sub(self.used)
    }

    pub(crate) fn put_bytes(&mut self, text: &[u8])
        ensures same_buffer { SameBuffer self.new self.old }
        ensures value { held self.new ≡ put_of text.now (held self.old) }
    {
        self.used = writing::put_bytes(self.bytes, self.used, text);
    }

    pub(crate) fn put_number(&mut self, v: u64)
        ensures same_buffer { SameBuffer self.new self.old }
        ensures value { held self.new ≡ put_of (decimal v) (held self.old) }
    {
        self.used = writing::put_number(self.bytes, self.used, v);
    }
}
