// A lane as C sees it: a pointer to a value of a type that C does not know, or none.
ghost use Rattle.std.specs.Prelude.{◌≡◌, Option, Some, None};
ghost use Rattle.kangaroo_c.specs.declared.kept_lane.KeptLane.{KeptLane};
ghost use Rattle.kangaroo_c.specs.Held.{held};
ghost use Rattle.std.specs.Coded.{codes};
ghost use Rattle.kset.specs.Sets.{sets_code};

use crate::kept_lane::KeptLane;
use crate::parts::Parts;
use std::alloc::Global;
use std::marker::Model;

/// A place of C's for a lane. It holds one or it is empty.
#[repr(C)]
#[derive(Drop)]
pub struct Handle {
    ptr: *mut u8,
    alloc: Global,
    pub ghost lane: { Option KeptLane } by { Prim.hlevel (codes, sets_code) },
}

impl Model for Handle {
    ghost also_owns = { λ h. held h.alloc h.ptr h.lane };
}

impl Handle {
    /// A place with no lane.
    pub fn none(alloc: Global) -> Handle
        ensures { result.lane ≡ None }
    {
        Handle {
            ptr: std::ptr::null_mut(),
            alloc,
        }
    }

    /// A place with this lane.
    pub fn of_parts(parts: Parts<KeptLane, Global>) -> Handle
        ensures { result.lane ≡ Some parts.value }
    {
        let Parts { ptr: raw, alloc } = parts;
        let ptr = raw as *mut u8;
        Handle { ptr, alloc }
    }

    /// The lane of a place that has one.
    pub fn into_parts(self) -> Parts<KeptLane, Global>
        requires { (m : KeptLane) × (self.lane ≡ Some m) }
        ensures { self.lane ≡ Some result.value }
    {
        let Handle { ptr: raw, alloc } = self;
        let ptr = raw as *mut KeptLane;
        Parts { ptr, alloc }
    }
}

unsafe impl Send for Handle {}
