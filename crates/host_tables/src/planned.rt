// How an operation goes, by what a host keeps.
ghost use Rattle.std.specs.Prelude.{◌≡◌, IfOk};
ghost use Rattle.host_plans.specs.Answers.{planned_in};
ghost use Rattle.host_plans.specs.Plans.{PlanHolds};

use crate::host::HostTables;
use cxl_message::Op;
use host_plans::{Plan, Unplanned, plan};

impl HostTables {
    /// How an operation goes, or the first cause that it has no plan.
    pub fn plan(&self, op: &Op) -> Result<Plan, Unplanned>
        ensures value { result ≡ planned_in self.now.setup self.now.kept op.now }
        ensures holds { IfOk result (λ plan. PlanHolds self.now.setup.ways self.now.setup.lines self.now.kept.ways self.now.kept.busy op.now plan) }
    {
        plan(
            &self.setup,
            &self.cache,
            &self.busy,
            &self.opened,
            &self.conflicts,
            op,
        )
    }
}
