//! The words of a plan.
ghost use Rattle.std.specs.Prelude.{◌≡◌};
ghost use Rattle.plan_facts.specs.Plan.{most_takes};

use run_plan::RunPlan;

/// By how many entries a message may be taken.
pub fn most_takes(plan: &RunPlan) -> usize
    ensures { result ≡ most_takes plan.now }
{
    match &plan.storm {
        None => 1,
        Some(storm) => if storm.repeat > 0 { 2 } else { 1 },
    }
}
