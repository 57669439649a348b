// The line of a refusal.
ghost use Rattle.std.specs.Prelude.{◌≡◌};
ghost use Rattle.answer.specs.Lines.{refusal_line as line_of};

use crate::hex::Lines;
use job::refusal::Refusal;

// what the line of a refusal begins with
const REFUSED: u8 = 255;

// FF, the number of the refusal, and the number of the line in 2 bytes.
pub fn refusal_line(refusal: Refusal, line: u16) -> [u8; 9]
    ensures { result ≡ line_of refusal line }
{
    let [high, low] = line.to_be_bytes();
    let mut out = [0; 9];
    let mut lines = Lines::new(&mut out);
    lines.put_bytes(&[REFUSED, refusal.number(), high, low]);
    lines.end_line();
    out
}
