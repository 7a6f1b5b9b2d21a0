// A job's first part: 7 numbers of eight bytes, the lowest byte first.

use listing::Replaying;
use rules::Dims;
use std::io::Read;
use streams::reading::read_full;

#[derive(Clone, Copy)]
pub(crate) struct Head {
    dims: Dims,
    // How many bytes are lent to each piece.
    pub(crate) room: usize,
    // The byte that the buffer is filled with before each piece.
    pub(crate) fill: u8,
    // How long the text is.
    pub(crate) length: usize,
}

impl Head {
    // None where the input ends before the seventh number.
    pub(crate) fn read<R: Read>(reader: &mut R) -> Option<Head> {
        let mut bytes = [0u8; 56];
        if read_full(reader, &mut bytes).ok()? < 56 {
            return None;
        }
        let (numbers, _) = bytes.as_chunks::<8>();
        let [processors, words, lines, entries, room, fill, length] = numbers else {
            return None;
        };
        let dims = Dims {
            processors: usize::from_le_bytes(*processors),
            words: usize::from_le_bytes(*words),
            lines: usize::from_le_bytes(*lines),
            entries: usize::from_le_bytes(*entries),
        };
        Some(Head {
            dims,
            room: usize::from_le_bytes(*room),
            fill: fill[0],
            length: usize::from_le_bytes(*length),
        })
    }

    pub(crate) fn begin(self, s: &[u8]) -> Replaying {
        listing::begin(s, self.dims)
    }
}
