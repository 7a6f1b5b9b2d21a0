// Parts of the array copied into a machine's arrays, and back.

ghost use Rattle.std.specs.Prelude.{◌≡◌, ℕ, ◌<◌, length, slice_index_or};
ghost use Rattle.std.specs.List.{AllZip};

use rules::Copies;

// Each place of a slice becomes what f makes of that place of another, also where that is the same: by the library's copy_from_slice the
// archive for C would need memmove from the C library, which it has no other use for.
pub(crate) fn copy_by<A: Copy, B: Copy, F: Fn(A) -> B>(from: &[A], to: &mut [B], f: F)
    requires same { length to.old ≡ length from.now }
    requires calls { (i : ℕ) (d : A) → i < length from.now → F.pre f (slice_index_or from.now i d) }
    ensures { AllZip (F.post f) from.now to.new }
{
    for (i, x) in from.iter().enumerate() {
        to[i] = f(*x);
    }
}

// By halves: a long copy the C library makes by an instruction that an emulator takes byte by byte.
pub(crate) fn put_copies(copies: &Copies, places: &mut [u64])
    requires { length places.old ≡ 512 }
    ensures { places.new ≡ copies.now }
{
    let (front, back) = places.split_at_mut(256);
    copy_by(&copies[..256], front, |copy| copy);
    copy_by(&copies[256..], back, |copy| copy);
}
