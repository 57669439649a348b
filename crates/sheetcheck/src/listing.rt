// What a good sheet says, for a person.
use crate::counted::Counted;
use sheet::opening::ScaleName;
use sheet::read::Contents;
use std::fmt;

#[derive(Clone, Copy)]
pub struct Listing<'a> {
    pub scale: ScaleName,
    pub contents: &'a Contents,
}

impl fmt::Display for Listing<'_> {
    fn fmt<W: fmt::Write>(&self, f: &mut fmt::Formatter<W>) -> fmt::Result {
        let job = &self.contents.job;
        let costs = match self.scale {
            ScaleName::Minutes => "minutes",
            ScaleName::Clashes => "clashes and minutes",
        };
        let heads = Counted(job.heads(), "head");
        writeln!(f, "A sheet in {costs} with {heads}.")?;
        for head in 1..=job.heads() {
            let setups = Counted(job.setups(head), "setup");
            writeln!(f, "  head {head}: {setups}")?;
        }
        let pairs = |have_table| Pairs {
            contents: self.contents,
            have_table,
        };
        let (costly, free) = (pairs(true), pairs(false));
        let plans = job.plans();
        writeln!(f, "Pairs with a table of costs: {costly}.")?;
        writeln!(f, "Pairs that cost nothing: {free}.")?;
        writeln!(f, "Complete plans: {plans}.")
    }
}

// The pairs of heads that have a table of costs, or those that have none, as "1-2, 2-3".
#[derive(Clone, Copy)]
struct Pairs<'a> {
    contents: &'a Contents,
    have_table: bool,
}

impl fmt::Display for Pairs<'_> {
    fn fmt<W: fmt::Write>(&self, f: &mut fmt::Formatter<W>) -> fmt::Result {
        let heads = self.contents.job.heads();
        let mut found = false;
        for a in 1..heads {
            for b in a + 1..=heads {
                if self.contents.has_table(a, b) == self.have_table {
                    let comma = if found { ", " } else { "" };
                    write!(f, "{comma}{a}-{b}")?;
                    found = true;
                }
            }
        }
        if found { Ok(()) } else { write!(f, "none") }
    }
}
