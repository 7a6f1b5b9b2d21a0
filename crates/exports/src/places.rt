// The places of the array, as specs/Array.antt and include/stirnfeld.h have them. Places 0 to 3 hold the dimensions.

pub(crate) const FLAGS_FROM: usize = 16;

pub(crate) const FLAGS_END: usize = 32;

pub(crate) const MEMORY_FROM: usize = 256;

pub(crate) const LINES_FROM: usize = 512;

pub(crate) const ENTRIES_FROM: usize = 1024;

pub(crate) const ENTRIES_END: usize = 1536;

pub type State = [u64; 2048];
