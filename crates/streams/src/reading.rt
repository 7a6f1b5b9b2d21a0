// Input read into a lent buffer.

ghost use Rattle.std.specs.Prelude.{◌≡◌, ◌<◌, length, take, All, IfOk};
ghost use Rattle.std.specs.Io.{ReadsAtMost};
ghost use Rattle.std.specs.Io.KnownBytes.{Consumes, IsAtEnd};

use std::io;
use std::io::Read;

// A buffer of zeros. Its contract does not write it out: a proof about the caller would go through so long a list.
pub fn zeros<const N: usize>() -> [u8; N]
    ensures count { N ≡ length result }
    ensures value { All (λ byte. byte ≡ 0) result }
{
    [0; N]
}

// Reads until the buffer is full or the input ends, and returns how many bytes came, or the error of the first read that failed. It is a loop of its
// own since std's read_exact tells no count where the input ends, and its read_to_end wants the heap.
pub fn read_full<R: Read>(reader: &mut R, buffer: &mut [u8]) -> io::Result<usize>
    ensures bound { ReadsAtMost result buffer.new }
    ensures bytes { IfOk result (λ n. Consumes (R.remaining reader.old) (R.remaining reader.new) (take n buffer.new)) }
    ensures end { IfOk result (λ n. n < length buffer.new → IsAtEnd (R.remaining reader.new)) }
{
    let mut bytes = 0;
    while bytes < buffer.len() {
        match reader.read(&mut buffer[bytes..])? {
            0 => break,
            more => bytes += more,
        }
    }
    Ok(bytes)
}
