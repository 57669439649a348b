// The scale that a sheet names in its first line.
ghost use Rattle.std.specs.Prelude.{◌≡◌};
ghost use Rattle.sheet.specs.Frames.{said};
ghost use Rattle.sheet.specs.Openings.{number as scale_number, scale_said, scale_in, first_line as line_first, scale_of};

use crate::frame::Frame;
use crate::line::first_length;

#[derive(Clone, Copy, Debug, PartialEq, Eq)]
pub enum ScaleName {
    Minutes = 1,
    Clashes = 2,
}

impl ScaleName {
    pub fn number(self) -> u8
        ensures { result ≡ scale_number self }
    {
        self as u8
    }
}

fn scale_of_frame(frame: Frame) -> ScaleName
    ensures { result ≡ scale_said (said frame.entry) }
{
    match frame {
        Frame::Opening {
            heads: 1..=8,
            scale,
        } if scale == ScaleName::Clashes.number() => ScaleName::Clashes,
        _ => ScaleName::Minutes,
    }
}

// The scale that a line names if it is a lawful opening; minutes for any other line.
fn scale_in_line(line: &[u8]) -> ScaleName
    ensures { result ≡ scale_in line.now }
{
    Frame::of_line(line).map_or(ScaleName::Minutes, scale_of_frame)
}

fn first_line(sheet: &[u8]) -> &[u8]
    ensures { result.now ≡ line_first sheet.now }
{
    &sheet[..first_length(sheet)]
}

// The scale that a lawful first line names; minutes for any other sheet.
pub fn scale_named(sheet: &[u8]) -> ScaleName
    ensures { result ≡ scale_of sheet.now }
{
    scale_in_line(first_line(sheet))
}
