// What a plan costs, pair by pair and in all.
ghost use Rattle.std.specs.Prelude.{◌≡◌, IfOk};
ghost use Rattle.problem.specs.Costs.{plan_cost};
ghost use Rattle.sheetcheck.specs.Pricing.{PricedAsNamed};

use crate::failure::Failure;
use job::job::Job;
use job::plan::Plan;
use problem::price::Problem;
use scale::scale::Scale;
use std::alloc::Global;
use std::fmt;

#[derive(Clone, Copy)]
struct PairPrice<S> {
    a: u8,
    b: u8,
    cost: S,
}

#[derive(Drop)]
pub struct Prices<S> {
    job: Job,
    plan: Plan,
    pairs: Vec<PairPrice<S>>,
    whole: S,
}

impl<S: Scale> Prices<S> {
    pub(crate) fn new(
        heap: Global,
        job: &Job,
        costs: &[S],
        plan: Plan,
    ) -> Result<Prices<S>, Failure>
        ensures whole { IfOk result (λ x. x.whole ≡ plan_cost S.Scale.scale costs.now job.now plan) }
        ensures each { IfOk result (λ x. PricedAsNamed S.Scale.scale costs.now plan x.pairs.items) }
    {
        let problem = Problem { job, costs };
        let heads = job.heads();
        let mut pairs = Vec::new(heap);
        for a in 1..heads {
            for b in a + 1..=heads {
                let cost = problem.pair_cost(a, b, &plan)?;
                pairs.push(PairPrice { a, b, cost })?;
            }
        }
        let whole = problem.plan_cost(&plan)?;
        Ok(Prices {
            job: *job,
            plan,
            pairs,
            whole,
        })
    }
}

impl<S: fmt::Display> fmt::Display for Prices<S> {
    fn fmt<W: fmt::Write>(&self, f: &mut fmt::Formatter<W>) -> fmt::Result {
        write!(f, "Plan ")?;
        for head in 1..=self.job.heads() {
            if let Some(setup) = self.plan.setup(head) {
                let comma = if head > 1 { ", " } else { "" };
                write!(f, "{comma}{setup}")?;
            }
        }
        writeln!(f, ":")?;
        for pair in self.pairs.iter() {
            let PairPrice { a, b, cost } = pair;
            writeln!(f, "  heads {a} and {b}: {cost}")?;
        }
        let whole = &self.whole;
        writeln!(f, "  in all: {whole}")
    }
}
