// A number with its noun, as "1 head" or "3 heads".
use std::fmt;

#[derive(Clone, Copy)]
pub(crate) struct Counted(pub u8, pub &'static str);

impl fmt::Display for Counted {
    fn fmt<W: fmt::Write>(&self, f: &mut fmt::Formatter<W>) -> fmt::Result {
        let Counted(count, noun) = self;
        let ending = if *count == 1 { "" } else { "s" };
        write!(f, "{count} {noun}{ending}")
    }
}
