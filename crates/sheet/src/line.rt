// Lines.
ghost use Rattle.std.specs.Prelude.{◌≡◌, ℕ, List, [], ◌∷◌, length, MatchOption};
ghost use Rattle.std.specs.Iterator.{at_most};
ghost use Rattle.job.specs.Lists.{every};
ghost use Rattle.sheet.specs.Hex.{is_digit as is_hexadecimal};
ghost use Rattle.sheet.specs.Lines.{are_digits, line_length, lines};

use crate::hex::is_digit;
use std::marker::Model;

// the most digits of a line: a table of 8 by 8 entries of 6 bytes, and 6 digits before it
const MOST_DIGITS: usize = 774;

// How long the first line of `rest` is, with its 0A if it has one.
pub(crate) fn first_length(rest: &[u8]) -> usize
    ensures { result ≡ line_length rest.now }
{
    match rest.iter().position(|byte| *byte == b'\n') {
        Some(i) => i + 1,
        None => rest.len(),
    }
}

// The lines of a sheet that are still to come, each with its 0A; the last may have none. An iterator of its own, since a loop over
// `split_inclusive` gets no proof in a generic function.
#[derive(Drop)]
pub(crate) struct Lines<'a> {
    rest: &'a [u8],
}

impl<'a> Model for Lines<'a> {
    ghost Value = { List (List ℕ) };

    ghost view = { λ s. lines s.rest.now };
}

impl<'a> Lines<'a> {
    pub(crate) fn of(sheet: &'a [u8]) -> Lines<'a>
        ensures { result ≡ lines sheet.now }
    {
        Lines { rest: sheet }
    }
}

impl<'a> Iterator for Lines<'a> {
    type Item = &'a [u8];

    ghost can_next = { λ _. Unit {0} };

    ghost next_gives = { λ s r t. MatchOption r ((s ≡ []) × (t ≡ [])) (λ line. s ≡ line.now ∷ t) };

    ghost remaining = { λ s. at_most (length s) };

    fn next(&mut self) -> Option<&'a [u8]> {
        if self.rest.is_empty() {
            return None;
        }
        let (line, rest) = self.rest.split_at(first_length(self.rest));
        self.rest = rest;
        Some(line)
    }
}

fn all_digits(digits: &[u8]) -> bool
    ensures { result ≡ every is_hexadecimal digits.now }
{
    digits.iter().all(|digit| is_digit(*digit))
}

// Whether these are the digits of a line.
pub(crate) fn are_digits(digits: &[u8]) -> bool
    ensures { result ≡ are_digits digits.now }
{
    digits.len() >= 2 && digits.len() <= MOST_DIGITS && digits.len() % 2 == 0 && all_digits(digits)
}
