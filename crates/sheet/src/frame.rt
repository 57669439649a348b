// Frames: what a line says. A table's frame shows its entries as digits in the sheet itself.
ghost use Rattle.std.specs.Prelude.{◌≡◌, if◌then◌else◌, Some, None};
ghost use Rattle.std.specs.Option.{option_map};
ghost use Rattle.sheet.specs.Lines.{is_line};
ghost use Rattle.sheet.specs.Frames.{said, kind as kind_of, is_end, kind_of_byte, of_kind, framed as framed_digits, frame_of};

use crate::hex::byte;
use crate::line::are_digits;

// The first byte of a frame: 01, 02, 03 and 04.
#[derive(Clone, Copy, Debug, PartialEq, Eq)]
pub enum Kind {
    Opening,
    Head,
    Table,
    End,
}

impl Kind {
    // An option and no `TryFrom`, since a byte that names no kind is no error here: its frame is unknown.
    fn of_byte(byte: u8) -> Option<Kind>
        ensures { result ≡ kind_of_byte byte }
    {
        match byte {
            1 => Some(Kind::Opening),
            2 => Some(Kind::Head),
            3 => Some(Kind::Table),
            4 => Some(Kind::End),
            _ => None,
        }
    }
}

#[derive(Clone, Copy)]
pub enum Frame<'a> {
    Opening {
        heads: u8,
        scale: u8,
    },
    Head {
        head: u8,
        setups: u8,
    },
    Table {
        first: u8,
        second: u8,
        digits: &'a [u8],
    },
    End,
    // of this kind, but not of its length
    Misshapen(Kind),
    Unknown,
}

fn is_end_line(line: &[u8]) -> bool
    ensures { result ≡ is_end line.now }
{
    line == b"04\n".as_slice()
}

// The frame of a kind with two fields, and the digits after them.
fn from_fields<'a>(kind: Kind, a: u8, b: u8, digits: &'a [u8]) -> Frame<'a>
    ensures { said result ≡ of_kind kind a b digits.now }
{
    match kind {
        Kind::Opening if digits.is_empty() => Frame::Opening { heads: a, scale: b },
        Kind::Head if digits.is_empty() => Frame::Head { head: a, setups: b },
        Kind::Table => Frame::Table {
            first: a,
            second: b,
            digits,
        },
        _ => Frame::Misshapen(kind),
    }
}

// The frame of a line's digits: two for the kind, two for each of two fields, and the rest.
fn framed<'a>(digits: &'a [u8]) -> Frame<'a>
    ensures { said result ≡ framed_digits digits.now }
{
    match digits {
        [k0, k1, a0, a1, b0, b1, rest @ ..] => match Kind::of_byte(byte(*k0, *k1)) {
            Some(kind) => from_fields(kind, byte(*a0, *a1), byte(*b0, *b1), rest),
            None => Frame::Unknown,
        },
        [k0, k1, ..] => match Kind::of_byte(byte(*k0, *k1)) {
            Some(kind) => Frame::Misshapen(kind),
            None => Frame::Unknown,
        },
        _ => Frame::Unknown,
    }
}

impl<'a> Frame<'a> {
    // The frame of a line with its 0A; `None` for what is no line.
    pub fn of_line(line: &'a [u8]) -> Option<Frame<'a>>
        ensures { option_map said result ≡ (if is_line line.now then Some (frame_of line.now) else None) }
    {
        if is_end_line(line) {
            return Some(Frame::End);
        }
        match line {
            [digits @ .., b'\n'] if are_digits(digits) => Some(framed(digits)),
            _ => None,
        }
    }

    pub(crate) fn kind(self) -> Option<Kind>
        ensures { result ≡ kind_of (said self.entry) }
    {
        match self {
            Frame::Opening { .. } => Some(Kind::Opening),
            Frame::Head { .. } => Some(Kind::Head),
            Frame::Table { .. } => Some(Kind::Table),
            Frame::End => Some(Kind::End),
            Frame::Misshapen(kind) => Some(kind),
            Frame::Unknown => None,
        }
    }
}
