// What plans cost. These calls are the only ones that read a table of costs.
ghost use Rattle.std.specs.Prelude.{◌≡◌, ◌+◌, ◌-◌, ◌<◌, ◌≤◌, true, false, ◌≢◌, length};
ghost use Rattle.std.specs.List.{range_with_len};
ghost use Rattle.job.specs.Plans.{named, is_head, is_setup, is_of_job};
ghost use Rattle.problem.specs.Costs.{between as between_setups, as_named, against_those, against as against_named, plan_cost, bound as bound_of, Comparable, lesser as lesser_of, priced, may_ask_setup, may_ask_head, may_ask_pair};

use crate::place::{PLACES, place_known};
use job::job::Job;
use job::plan::Plan;
use job::refusal::Refusal;
use scale::scale::Scale;

// A job and what its setups cost each other, as a caller lends them.
#[derive(Clone, Copy)]
pub struct Problem<'a, S> {
    pub job: &'a Job,
    pub costs: &'a [S],
}

// The same, where all costs are known to be there. `Problem::prices` makes it, and `cost_after_adding` where an answer shows that they are.
#[derive(Drop)]
pub struct Prices<'a, S> {
    pub job: &'a Job,
    pub costs: &'a [S],
    ghost room: { 1792 ≤ length costs.now },
}

// The lesser of two costs, in the order of the scale: the trait promises that one, and no order of the language.
fn lesser<S: Scale>(x: S, y: S) -> S
    ensures { result ≡ lesser_of S.Scale.scale x y }
{
    if x.at_most(y) { x } else { y }
}

impl<'a, S: Scale> Prices<'a, S> {
    // What setup i of head h and setup k of head g cost each other.
    fn between(&self, h: u8, i: u8, g: u8, k: u8) -> S
        requires heads { (1 ≤ h) × ((h ≤ 8) × ((1 ≤ g) × ((g ≤ 8) × (h ≢ g)))) }
        requires setups { (i < 8) × (k < 8) }
        ensures { result ≡ between_setups S.Scale.scale self.now.costs.now h i g k }
    {
        if h < g {
            self.costs[place_known(h, i, g, k)]
        } else {
            self.costs[place_known(g, k, h, i)]
        }
    }

    // Setup i of head h against those of the heads from `from` up to `last` that the plan names.
    fn against_range(&self, h: u8, i: u8, plan: &Plan, from: u8, last: u8) -> S
        requires { Comparable plan.now h i from last }
        ensures { result ≡ against_those S.Scale.scale self.now.costs.now (range_with_len from (last + 1 - from)) h i plan.now }
    {
        // a loop: in a chain of `filter_map` and `fold` the closure within the closure would have to ask again what `between` asks; and up
        // to `last + 1`, since an inclusive range tests its end twice a turn
        let mut sum = S::nothing();
        for g in from..last + 1 {
            if let Some(k) = plan.setup(g) {
                sum = sum.join(self.between(h, i, g, k));
            }
        }
        sum
    }

    // The same as `Problem::against` for input that is known to be good. Public only for the crate of the heads, which shows that
    // it is.
    pub fn against(&self, head: u8, setup: u8, plan: &Plan) -> S
        requires of_job { is_of_job self.now.job.now plan.now ≡ true }
        requires asked { (is_setup self.now.job.now head setup ≡ true) × (named plan.now head ≡ false) }
        ensures { result ≡ against_named S.Scale.scale self.now.costs.now self.now.job.now head setup plan.now }
    {
        self.against_range(head, setup, plan, 1, self.job.heads())
    }

    // The same as `Problem::bound` for input that is known to be good. Not inlined: heads are asked for bounds more than for all else,
    // and within the whole run its sums would not stay in registers.
    #[inline(never)]
    fn bound(&self, head: u8, plan: &Plan) -> S
        requires of_job { is_of_job self.now.job.now plan.now ≡ true }
        requires asked { (is_head self.now.job.now head ≡ true) × (named plan.now head ≡ false) }
        ensures { result ≡ bound_of S.Scale.scale self.now.costs.now self.now.job.now head plan.now }
    {
        (0..self.job.setups(head))
            .map(|setup| self.against(head, setup, plan))
            .fold(S::never(), lesser)
    }

    // The join of the costs of all pairs that the plan names, for input that is known to be good.
    pub(crate) fn plan_cost(&self, plan: &Plan) -> S
        requires { is_of_job self.now.job.now plan.now ≡ true }
        ensures { result ≡ plan_cost S.Scale.scale self.now.costs.now self.now.job.now plan.now }
    {
        // a loop for the same reasons
        let mut sum = S::nothing();
        let last = self.job.heads();
        for a in 1..last + 1 {
            if let Some(i) = plan.setup(a) {
                sum = sum.join(self.against_range(a, i, plan, a + 1, last));
            }
        }
        sum
    }
}

impl<'a, S: Scale> Problem<'a, S> {
    ghost use Rattle.problem.specs.Prices.{MakesPrices};

    // The same with the knowledge that all costs are there. Refused as too little memory for fewer than 1,792 costs.
    pub fn prices(&self) -> Result<Prices<'a, S>, Refusal>
        ensures { MakesPrices self.now.job.now self.now.costs.now result }
    {
        if self.costs.len() < PLACES {
            return Err(Refusal::TooLittle);
        }
        Ok(Prices {
            job: self.job,
            costs: self.costs,
        })
    }

    // The join of what a setup of a head costs against each head that the plan names. Refused as too little memory for fewer than
    // 1,792 costs, then as a bad number unless the plan is one of the job that does not name the head, and the setup is one of
    // that head's.
    pub fn against(&self, head: u8, setup: u8, plan: &Plan) -> Result<S, Refusal>
        ensures { result ≡ priced self.now.costs.now (may_ask_setup self.now.job.now head setup plan.now) (against_named S.Scale.scale self.now.costs.now self.now.job.now head setup plan.now) }
    {
        let prices = self.prices()?;
        if !self.job.admits(plan) || setup >= self.job.setups(head) || plan.names(head) {
            return Err(Refusal::BadNumber);
        }
        Ok(prices.against(head, setup, plan))
    }

    // The least, over the setups of a head, of what it costs against the heads that the plan names: no completion of the plan has
    // that head for less. Refused as `against` is, unless the plan is one of the job that does not name the head.
    pub fn bound(&self, head: u8, plan: &Plan) -> Result<S, Refusal>
        ensures { result ≡ priced self.now.costs.now (may_ask_head self.now.job.now head plan.now) (bound_of S.Scale.scale self.now.costs.now self.now.job.now head plan.now) }
    {
        let prices = self.prices()?;
        if !self.job.admits(plan) || self.job.setups(head) < 1 || plan.names(head) {
            return Err(Refusal::BadNumber);
        }
        Ok(prices.bound(head, plan))
    }

    // The join of the costs of all pairs that the plan names; nothing where it names no pair. Refused as too little memory for
    // fewer than 1,792 costs, then as a bad number for a plan that is not one of the job.
    pub fn plan_cost(&self, plan: &Plan) -> Result<S, Refusal>
        ensures { result ≡ priced self.now.costs.now (is_of_job self.now.job.now plan.now) (plan_cost S.Scale.scale self.now.costs.now self.now.job.now plan.now) }
    {
        let prices = self.prices()?;
        if !self.job.admits(plan) {
            return Err(Refusal::BadNumber);
        }
        Ok(prices.plan_cost(plan))
    }

    // What two heads a < b cost each other as the plan has them. Refused as `plan_cost` is, and as a bad number unless the plan
    // names both.
    pub fn pair_cost(&self, a: u8, b: u8, plan: &Plan) -> Result<S, Refusal>
        ensures { result ≡ priced self.now.costs.now (may_ask_pair self.now.job.now a b plan.now) (as_named S.Scale.scale self.now.costs.now plan.now a b) }
    {
        let prices = self.prices()?;
        if !self.job.admits(plan) || a >= b {
            return Err(Refusal::BadNumber);
        }
        match (plan.setup(a), plan.setup(b)) {
            (Some(i), Some(j)) => Ok(prices.between(a, i, b, j)),
            _ => Err(Refusal::BadNumber),
        }
    }
}
