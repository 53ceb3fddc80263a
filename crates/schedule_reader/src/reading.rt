// The launches whose variables are true.
ghost use Rattle.std.specs.Prelude.{◌≡◌, ◌≤◌, IfOk, length, IsPermutation};
ghost use Rattle.std.specs.List.Sorted.{IsSortedBy};
ghost use Rattle.cnf_core.specs.Formula.{assigned};
ghost use Rattle.cycle_encoding.specs.Shapes.{numbered, shown};
ghost use Rattle.schedule_reader.specs.LaunchOrder.{comes_before};

use cycle_encoding::VarPlan;
use items::{Items, NoMemory};
use schedule_meaning::{Launch, Schedule};
use std::alloc::Global;

/// The launches whose variables are true, by cycle, slot, row and where they go, the pool first. The value of variable v
/// stands at v - 1.
pub fn read_off(alloc: Global, plan: &VarPlan, values: &[bool]) -> Result<Schedule, NoMemory>
    requires { length plan.now.launches ≤ length values.now }
    ensures same { IfOk result (λ s.
        IsPermutation (shown (assigned values.now) (numbered 0 plan.now.launches)) s.launches) }
    ensures sorted { IfOk result (λ s. IsSortedBy comes_before s.launches) }
{
    let mut launches = true_launches(alloc, plan.launches(), values)?;
    launches.sort()?;
    Ok(Schedule {
        launches: Items::from(launches),
    })
}

/// The launches whose variables are true, in the order of their variables.
#[tactic(auto, using(crate::proofs::Walk::more_yes, crate::proofs::Walk::more_no))]
fn true_launches(
    alloc: Global,
    launches: &[Launch],
    values: &[bool],
) -> Result<Vec<Launch>, NoMemory>
    requires { length launches.now ≤ length values.now }
    ensures { IfOk result (λ v. v.items ≡ shown (assigned values.now) (numbered 0 launches.now)) }
{
    let mut shown = Vec::new(alloc);
    for (index, launch) in launches.iter().enumerate() {
        if values[index] {
            shown.push(*launch)?;
        }
    }
    Ok(shown)
}
