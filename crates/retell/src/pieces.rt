// The pieces of a listing, each told with the whole buffer that it was written to.

use listing::Replaying;
use std::io::Write;

// No piece is longer than the buffer, so four bytes hold its length, the lowest byte first.
fn tell_number<W: Write>(writer: &mut W, number: usize) {
    let _ = writer.write_all(&number.to_le_bytes()[..4]);
}

// A proved loop has to end. So this one has a number of turns that no listing uses up: a piece that writes nothing is the last. It is no loop of
// streams': there a piece is passed on by its bytes, here it is told with the whole buffer, which is filled anew before each.
pub(crate) fn tell<W: Write>(writer: &mut W, s: &[u8], out: &mut [u8], byte: u8, first: Replaying) {
    let mut x = first;
    for _ in 0..u64::MAX {
        out.fill(byte);
        let p = listing::next_piece(s, out, x);
        tell_number(writer, p.used);
        let _ = writer.write_all(out);
        if p.used == 0 {
            return;
        }
        x = p.replaying;
    }
}
