// Writing hexadecimal digits.
ghost use Rattle.std.specs.Prelude.{◌≡◌, ◌+◌, ◌*◌, ◌<◌, ◌≤◌, [], ◌∷◌, length};
ghost use Rattle.answer.specs.Hex.{digit as digit_of, pair, hex};
ghost use Rattle.answer.specs.Cursors.{Puts};

// A digit, of which the letters are capital.
fn digit(value: u8) -> u8
    requires { value < 16 }
    ensures { result ≡ digit_of value }
{
    if value < 10 {
        b'0' + value
    } else {
        b'A' - 10 + value
    }
}

// Lines that are written one after another to memory that is lent, since no library here has a heap: `end` is where they end so far.
#[derive(Drop)]
pub(crate) struct Lines<'a> {
    out: &'a mut [u8],
    end: usize,
}

impl<'a> Lines<'a> {
    // No line yet.
    pub(crate) fn new(out: &'a mut [u8]) -> Lines<'a>
        ensures front { result.end ≡ 0 }
        ensures memory { result.out.now ≡ out.old }
        ensures same_memory { result.out.ghost_name ≡ out.entry.ghost_name }
    {
        Lines { out, end: 0 }
    }

    // How many bytes were written.
    pub(crate) fn end(&self) -> usize
        ensures { result ≡ self.now.end }
    {
        self.end
    }

    // Writes the two digits of a byte.
    fn put_byte(&mut self, byte: u8)
        requires { self.old.end + 2 ≤ length self.old.out.now }
        ensures { Puts self.old (pair byte) self.new }
    {
        let at = self.end;
        self.out[at] = digit(byte / 16);
        self.out[at + 1] = digit(byte % 16);
        self.end = at + 2;
    }

    // Writes the digits of some bytes.
    pub(crate) fn put_bytes(&mut self, bytes: &[u8])
        requires { self.old.end + 2 * length bytes.now ≤ length self.old.out.now }
        ensures { Puts self.old (hex bytes.now) self.new }
    {
        for byte in bytes {
            self.put_byte(*byte);
        }
    }

    // Ends a line.
    pub(crate) fn end_line(&mut self)
        requires { self.old.end + 1 ≤ length self.old.out.now }
        ensures { Puts self.old (10 ∷ []) self.new }
    {
        let at = self.end;
        self.out[at] = b'\n';
        self.end = at + 1;
    }
}
