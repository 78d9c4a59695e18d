//! A plan on the heap, as C can keep it.

ghost use Rattle.std.specs.Prelude.{◌≡◌, Option, None, Some, IsSome};
ghost use Rattle.mcf_c.specs.declared.plan.Plan.{Plan};
ghost use Rattle.mcf_c.specs.Ownership.{owned};

use crate::loose::Loose;
use crate::plan::Plan;
use std::alloc::Global;
use std::marker::Model;

/// A pointer that owns a plan on the heap, or nothing. It takes the bytes of a pointer: `Global` has none.
///
/// No method lets go of the plan; `into_loose` gives it back.
#[repr(C)]
#[derive(Drop)]
pub struct PlanPointer {
    at: *mut u8,
    alloc: Global,
    pub(crate) ghost plan: { Option Plan },
}

impl Model for PlanPointer {
    ghost also_owns = { λ p. owned p.alloc p.at p.plan };
}

impl PlanPointer {
    /// A pointer that owns nothing, wherever it points.
    pub(crate) fn to_nothing(at: *mut u8, alloc: Global) -> PlanPointer
        ensures { result.plan ≡ None }
    {
        PlanPointer { at, alloc }
    }

    /// Takes over a plan.
    pub(crate) fn of(plan: Loose<Plan, Global>) -> PlanPointer
        ensures { result.plan ≡ Some plan.value }
    {
        let Loose { at, alloc } = plan;
        PlanPointer {
            at: at as *mut u8,
            alloc,
        }
    }

    /// Gives back the plan that it owns.
    pub(crate) fn into_loose(self) -> Loose<Plan, Global>
        requires { IsSome self.plan }
        ensures { Some result.value ≡ self.plan }
    {
        let PlanPointer { at, alloc } = self;
        Loose {
            at: at as *mut Plan,
            alloc,
        }
    }
}
