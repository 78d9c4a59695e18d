//! The handle that C keeps of a session.

ghost use Rattle.std.specs.Prelude.{◌≡◌, None, Some};
ghost use Rattle.std.specs.Option.{is_some, option_map};

use crate::loose::Loose;
use crate::plan::Plan;
use crate::pointer::PlanPointer;
use std::alloc::Global;
use std::{mem, ptr};

/// A session that C keeps, or none: a handle whose bytes are all 0 is closed.
///
/// The two fields belong to the library: C makes a closed handle, keeps it, and passes it to the calls.
#[repr(C)]
#[derive(Drop)]
pub struct Handle {
    pub(crate) pointer: PlanPointer,
    is_open: bool,
    ghost open_is: { is_open ≡ is_some pointer.plan },
}

impl Handle {
    /// A handle of no session.
    fn closed(alloc: Global) -> Handle
        ensures { result.pointer.plan ≡ None }
    {
        Handle {
            pointer: PlanPointer::to_nothing(nowhere(), alloc),
            is_open: false,
        }
    }

    /// A handle of a session.
    fn of(plan: Box<Plan>) -> Handle
        ensures { result.pointer.plan ≡ Some plan.value }
    {
        Handle {
            pointer: PlanPointer::of(Loose::of(plan)),
            is_open: true,
        }
    }

    /// Takes the session out, and closes the handle.
    pub(crate) fn take(&mut self, alloc: Global) -> Option<Box<Plan>>
        ensures taken { option_map (λ plan. plan.value) result ≡ self.old.pointer.plan }
        ensures closed { self.new.pointer.plan ≡ None }
    {
        let Handle { pointer, is_open } = mem::replace(self, Handle::closed(alloc));
        if is_open {
            Some(pointer.into_loose().into_box())
        } else {
            None
        }
    }

    /// Puts a session in.
    pub(crate) fn put(&mut self, plan: Box<Plan>)
        requires { self.old.pointer.plan ≡ None }
        ensures { self.new.pointer.plan ≡ Some plan.value }
    {
        *self = Handle::of(plan);
    }

    /// Whether it has a session.
    pub(crate) fn is_open(&self) -> bool
        ensures { result ≡ is_some self.now.pointer.plan }
    {
        self.is_open
    }
}

/// The place of nothing.
fn nowhere() -> *mut u8 {
    ptr::null_mut()
}
