// A text that is read, a part at a time, at the front of a lent buffer.
ghost use Rattle.std.specs.Prelude.{◌≡◌, IfOk, length};
ghost use Rattle.protocol.specs.Counts.{IsPrefixLen};
ghost use Rattle.protocol.specs.Kept.{kept_count, kept_text};

use std::io;
use std::io::Read;

// Reads until the buffer is full or the input ends, and tells how many bytes there are. A short read is repeated; std has no call that stops
// at a full buffer.
pub fn fill(input: &mut impl Read, text: &mut [u8]) -> io::Result<usize>
    ensures { IfOk result (λ n. IsPrefixLen n text.new) }
{
    let mut done = 0;
    while done < text.len() {
        let read = input.read(&mut text[done..])?;
        if read == 0 {
            break;
        }
        done += read;
    }
    Ok(done)
}

// Moves the bytes from a place up to the n-th to the front, and tells how many they are.
pub fn keep(text: &mut [u8], at: usize, n: usize) -> usize
    ensures { (result ≡ kept_count (length text.old) at n) × (text.new ≡ kept_text text.old at n) }
{
    let end = text.len().min(n);
    if end < at {
        return 0;
    }
    text.copy_within(at..end, 0);
    end - at
}
