// The replay of a whole text: its listing, written in pieces to a lent buffer.

#![tactic(auto)]

mod lines;
mod page;
mod pieces;
mod places;
mod records;

ghost use Rattle.std.specs.Prelude.{◌≡◌};
ghost use Rattle.listing.specs.Replay.{piece_left_by, begin_of, next_piece};

use crate::places::Place;
use rules::{Dims, Machine};

// What stands between two pieces. The text s comes beside it, here and below, as it does in next_piece, of which docs/PROMISES.md speaks.
#[derive(Clone, Copy)]
pub struct Replaying {
    place: Place,
    machine: Machine,
}

// used bytes of the buffer were written; none where the listing is whole, or the buffer has fewer than 72.
// A number and no Option: the definition next_piece, of which docs/PROMISES.md speaks, counts so, as who writes them on needs it.
#[derive(Clone, Copy)]
pub struct Piece {
    pub used: usize,
    pub replaying: Replaying,
}

// The machine has memory zero; none has more than 256 words. One that is refused is replayed too: its listing is the refusal.
pub fn begin(s: &[u8], dims: Dims) -> Replaying
    ensures { result ≡ begin_of s.now dims }
{
    let memory = [0; 256];
    let n = dims.words.min(256);
    match machine::make(dims, &memory[..n]) {
        Ok(machine) => Replaying {
            place: places::begin_at(s),
            machine,
        },
        Err(refused) => Replaying {
            place: places::first_place(Some(refused.refusal), 0),
            machine: refused.machine,
        },
    }
}

#[tactic(auto, unfolding(crate::specs::Replay::next_piece))]
pub fn next_piece(s: &[u8], out: &mut [u8], x: Replaying) -> Piece
    ensures { piece_left_by result out.new ≡ next_piece s.now x out.old }
{
    let mut after = x.machine;
    let reached = pieces::fill(s, out, &mut after.caches, after.dims, x.place);
    Piece {
        used: reached.used,
        replaying: Replaying {
            place: reached.place,
            machine: after,
        },
    }
}
