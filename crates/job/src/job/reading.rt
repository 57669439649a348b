// Making a job and asking it.
ghost use Rattle.std.specs.Prelude.{◌≡◌, ◌-◌, ◌≤◌, ◌&&◌, ◌++◌, length, replicate, nat_le};
ghost use Rattle.job.specs.Lists.{every};
ghost use Rattle.job.specs.Plans.{MakesJob, setups as setups_of, plans as plans_of, is_complete, is_of_job};

use super::Job;
use crate::plan::{NONE, Plan};
use crate::refusal::Refusal;

// Whether each is 1 to 8.
fn are_in_range(counts: &[u8]) -> bool
    ensures { result ≡ every (λ d. nat_le 1 d && nat_le d 8) counts.now }
{
    counts.iter().all(|count| (1..=8).contains(count))
}

// The counts, and 0 for each head past them.
fn padded(counts: &[u8]) -> [u8; 8]
    requires { length counts.now ≤ 8 }
    ensures { result ≡ counts.now ++ replicate (8 - length counts.now) 0 }
{
    let mut setups = [0; 8];
    setups[..counts.len()].copy_from_slice(counts);
    setups
}

impl Job {
    // The job whose heads have so many setups, head by head; refused as a bad number unless there are 1 to 8 heads with 1 to 8
    // setups each.
    pub fn new(counts: &[u8]) -> Result<Job, Refusal>
        ensures { MakesJob counts.now result }
    {
        if counts.is_empty() || counts.len() > 8 || !are_in_range(counts) {
            return Err(Refusal::BadNumber);
        }
        Ok(Job {
            heads: counts.len() as u8,
            setups: padded(counts),
        })
    }

    pub fn heads(&self) -> u8
        ensures { result ≡ self.now.heads }
    {
        self.heads
    }

    // How many setups a head has; 0 for a number that is no head of the job.
    pub fn setups(&self, head: u8) -> u8
        ensures { result ≡ setups_of self.now head }
    {
        if head < 1 || head > 8 {
            return 0;
        }
        self.setups[head as usize - 1]
    }

    // The number of complete plans.
    pub fn plans(&self) -> u32
        ensures { result ≡ plans_of self.now }
    {
        self.setups[..self.heads as usize]
            .iter()
            .map(|setups| u32::from(*setups))
            .product()
    }

    // Whether the plan names all heads of the job.
    pub fn is_complete(&self, plan: &Plan) -> bool
        ensures { result ≡ is_complete self.now plan.now }
    {
        (1..self.heads + 1).all(|head| plan.names(head))
    }

    // Whether the plan names no head and no setup that the job lacks.
    pub fn admits(&self, plan: &Plan) -> bool
        ensures { result ≡ is_of_job self.now plan.now }
    {
        let mut pairs = plan.setups.iter().zip(&self.setups);
        pairs.all(|(setup, count)| *setup == NONE || setup < count)
    }
}
