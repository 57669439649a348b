// What the search rests on: each function does what its theorems speak of.
ghost use Rattle.std.specs.Prelude.{◌≡◌, ◌+◌, ◌-◌, ◌*◌};
ghost use Rattle.job.specs.Plans.{name, plans as plans_of};
ghost use Rattle.problem.specs.Costs.{against as against_named, plan_cost, priced, may_ask_setup};
ghost use Rattle.problem.specs.Pruning.{NamingJoinsCosts, PruningIsSafe, ChildrenCover};
ghost use Rattle.problem.specs.Weights.{ExpandingFits, RootsWeigh};

use crate::price::{Prices, Problem};
use job::job::Job;
use job::plan::Plan;
use job::refusal::Refusal;
use scale::scale::Scale;

impl<'a, S: Scale> Problem<'a, S> {
    // The same as `cost_after_naming`, where what naming the head adds is known.
    fn cost_after_adding(
        &self,
        head: u8,
        setup: u8,
        plan: Plan,
        added: Result<S, Refusal>,
    ) -> Result<S, Refusal>
        requires { added ≡ priced self.now.costs.now (may_ask_setup self.now.job.now head setup plan) (against_named S.Scale.scale self.now.costs.now self.now.job.now head setup plan) }
        ensures value { result ≡ priced self.now.costs.now (may_ask_setup self.now.job.now head setup plan) (plan_cost S.Scale.scale self.now.costs.now self.now.job.now (name plan head setup)) }
        ensures naming { NamingJoinsCosts S.Scale.scale }
        ensures pruning { PruningIsSafe S.Scale.scale }
    {
        let more = added?;
        // an answer shows that all costs are there, so they are not counted again
        let prices = Prices {
            job: self.job,
            costs: self.costs,
        };
        Ok(prices.plan_cost(&plan).join(more))
    }

    // The cost of the plan with one more head named, by what naming it adds; refused as `against` is. And no completion of a plan
    // is cheaper than its cost joined with the bounds.
    pub fn cost_after_naming(&self, head: u8, setup: u8, plan: &Plan) -> Result<S, Refusal>
        ensures value { result ≡ priced self.now.costs.now (may_ask_setup self.now.job.now head setup plan.now) (plan_cost S.Scale.scale self.now.costs.now self.now.job.now (name plan.now head setup)) }
        ensures naming { NamingJoinsCosts S.Scale.scale }
        ensures pruning { PruningIsSafe S.Scale.scale }
    {
        self.cost_after_adding(head, setup, *plan, self.against(head, setup, plan))
    }
}

// The same as `roots_weight`, where the number of complete plans is known.
fn weight_of_plans(job: &Job, plans: u32) -> u32
    requires { plans ≡ plans_of job.now }
    ensures value { result ≡ plans_of job.now * ((job.now.heads - 1) * (job.now.heads + 3)) }
    ensures cover { ChildrenCover }
    ensures expanding { ExpandingFits }
    ensures roots { RootsWeigh }
{
    let heads = job.heads() as u32;
    plans * ((heads - 1) * (heads + 3))
}

// What the plans that name one head weigh together, whichever head it is. And trying each setup of a head loses no plan and costs
// no more messages than the plan weighs.
pub fn roots_weight(job: &Job) -> u32
    ensures value { result ≡ plans_of job.now * ((job.now.heads - 1) * (job.now.heads + 3)) }
    ensures cover { ChildrenCover }
    ensures expanding { ExpandingFits }
    ensures roots { RootsWeigh }
{
    weight_of_plans(job, job.plans())
}

// What naming a head adds to a plan's cost, and that no completion of a plan is cheaper than its cost joined with the bounds.
pub fn costs_stand<S: Scale>() -> u8
    ensures naming { NamingJoinsCosts S.Scale.scale }
    ensures pruning { PruningIsSafe S.Scale.scale }
{
    0
}

// That trying each setup of a head loses no plan, and what that costs in messages.
pub fn children_stand() -> u8
    ensures cover { ChildrenCover }
    ensures expanding { ExpandingFits }
    ensures roots { RootsWeigh }
{
    0
}
