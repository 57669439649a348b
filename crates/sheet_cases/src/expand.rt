// The short form in which the table has its sheets.
ghost use Rattle.std.specs.Prelude.{◌≤◌, length};
ghost use Rattle.std.specs.Str.Iter.{bytes_rest};

use std::alloc::{AllocError, Global};
use std::str::Bytes;

// Reads how often a bracket repeats its text, up to the *: by the low four bits of each byte, so any byte counts as some digit. None where
// no * comes.
fn read_times(rest: &mut Bytes) -> Option<usize>
    ensures { length (bytes_rest rest.new) ≤ length (bytes_rest rest.old) }
{
    let mut times = 0usize;
    while let Some(byte) = rest.next() {
        if byte == b'*' {
            return Some(times);
        }
        times = times
            .saturating_mul(10)
            .saturating_add(usize::from(byte & 15));
    }
    None
}

// Reads the text that a bracket repeats, and says whether the bracket ends; `~` stands for itself there.
fn read_repeated(rest: &mut Bytes, repeated: &mut Vec<u8>) -> Result<bool, AllocError>
    ensures { length (bytes_rest rest.new) ≤ length (bytes_rest rest.old) }
{
    while let Some(byte) = rest.next() {
        match byte {
            b')' => return Ok(true),
            b'/' => repeated.push(b'\n')?,
            other => repeated.push(other)?,
        }
    }
    Ok(false)
}

// The bytes that the short form stands for. Nothing is refused: a bracket that does not end adds nothing, as does all after it. Not
// inlined, since beside the lines of the table its loops lack registers: one byte that is repeated often then takes a fifth more time.
#[inline(never)]
pub(crate) fn expanded(heap: Global, short: &str) -> Result<Vec<u8>, AllocError> {
    let mut bytes = Vec::new(heap);
    let mut repeated = Vec::new(heap);
    // one iterator for all parts: a bracket reads on where the text before it stopped
    let mut rest = short.bytes();
    while let Some(byte) = rest.next() {
        match byte {
            // in a bracket stands how often, and then what is repeated, as 3*0A)
            b'(' => {
                let Some(times) = read_times(&mut rest) else {
                    return Ok(bytes);
                };
                repeated.clear();
                if !read_repeated(&mut rest, &mut repeated)? {
                    return Ok(bytes);
                }
                for _ in 0..times {
                    bytes.extend_from_slice(repeated.as_slice())?;
                }
            }
            b'/' => bytes.push(b'\n')?,
            b'~' => bytes.push(b'\r')?,
            other => bytes.push(other)?,
        }
    }
    Ok(bytes)
}
