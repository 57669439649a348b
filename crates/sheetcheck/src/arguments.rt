// The program's arguments: a setup for each head.
ghost use Rattle.std.specs.Prelude.{◌≡◌, ℕ, ◌<◌, length, IfOk, Ok, Err, string_bytes, decimal, ◌≢◌};
ghost use Rattle.job.specs.declared.plan.Plan.{Plan as PlanOfHeads};
ghost use Rattle.job.specs.Plans.{Complete, setups as setups_of};
ghost use Rattle.sheetcheck.specs.Spelling.{Spelled};

use crate::counted::Counted;
use job::job::Job;
use job::plan::Plan;
use std::fmt;

// What is wrong with the arguments.
#[derive(Clone, Copy)]
pub enum Complaint<'a> {
    // not one for each head
    Count { heads: u8, given: usize },
    NotANumber(&'a str),
    // a number past the last setup of its head
    NoSuchSetup { head: u8, setups: u8, given: u32 },
}

// The complete plan that the words name, head by head: the setups of a plan in decimal name that plan.
pub(crate) fn plan_of<'a>(job: &Job, words: &'a [String]) -> Result<Plan, Complaint<'a>>
    ensures complete { IfOk result (λ p. Complete job.now p) }
    ensures spelled { (q : PlanOfHeads) → Spelled string_bytes job.now words.now q → result ≡ Ok q }
    ensures count { (length words.now ≢ job.now.heads) → result ≡ Err (Complaint.Count job.now.heads (length words.now)) }
{
    let heads = job.heads();
    if words.len() != heads as usize {
        return Err(Complaint::Count {
            heads,
            given: words.len(),
        });
    }
    let mut plan = Plan::empty();
    for (head, word) in (1..heads + 1).zip(words) {
        let setup = setup_of(job, head, word.as_str())?;
        plan = plan.name(head, setup);
    }
    Ok(plan)
}

// The setup of a head that a word names; each setup of the head is named by its number in decimal.
fn setup_of<'a>(job: &Job, head: u8, word: &'a str) -> Result<u8, Complaint<'a>>
    ensures within { IfOk result (λ i. i < setups_of job.now head) }
    ensures named { (i : ℕ) → i < setups_of job.now head → word.now ≡ decimal i → result ≡ Ok i }
{
    let Ok(given) = word.parse::<u32>() else {
        return Err(Complaint::NotANumber(word));
    };
    let setups = job.setups(head);
    if given >= u32::from(setups) {
        return Err(Complaint::NoSuchSetup {
            head,
            setups,
            given,
        });
    }
    Ok(given as u8)
}

// By hand and not by thiserror, since a sentence hangs on its numbers.
impl fmt::Display for Complaint<'_> {
    fn fmt<W: fmt::Write>(&self, f: &mut fmt::Formatter<W>) -> fmt::Result {
        match *self {
            Complaint::Count { heads, given } => count(f, heads, given),
            Complaint::NotANumber(word) => write!(f, "`{word}` is not a number of a setup."),
            Complaint::NoSuchSetup {
                head,
                setups,
                given,
            } => range(f, head, setups, given),
        }
    }
}

fn count<W: fmt::Write>(f: &mut fmt::Formatter<W>, heads: u8, given: usize) -> fmt::Result {
    let wanted = Counted(heads, "setup");
    let each = if heads == 1 {
        "is wanted, for the only head"
    } else {
        "are wanted, one for each head"
    };
    let were = if given == 1 { "was" } else { "were" };
    write!(f, "{wanted} {each}, and {given} {were} given.")
}

fn range<W: fmt::Write>(
    f: &mut fmt::Formatter<W>,
    head: u8,
    setups: u8,
    given: u32,
) -> fmt::Result {
    if setups < 2 {
        return write!(f, "Head {head} has only setup 0, and {given} is not it.");
    }
    let last = setups - 1;
    write!(
        f,
        "Head {head} has the setups 0 to {last}, and {given} is not one of them."
    )
}
