//! Plans: the data for laying the instances of a class, once its layout is known.
//!
//! The *layout* of a class is the list of its slots: its own fields, then those of its superclass, and so on. To *lay* an instance is to
//! find the references among its bytes, by the layout of its class. The *plan* of a class lists where they are, so the time to lay an
//! instance depends on its references, and neither on its superclasses nor on its fields. A *jump* leads to the next superclass that has
//! own fields that are references, and gives the numbers of bytes and fields before them. The *outline* of a class is the part of its
//! layout that the plans of its subclasses need.
//!
//! # Example
//!
//! Identifiers have 4 bytes. The dumps of three classes come from the top down:
//!
//! ```text
//! class C           { Object c; }
//! class B extends C { byte b; }
//! class A extends B { int x; Object a; }
//! ```
//!
//! The layout of A has 13 bytes. Each slot has its place in it, and its offset in the bytes of an instance:
//!
//! ```text
//! place   0     1     2     3
//! slot    x     a     b     c
//! offset  0     4     8     9
//! ```
//!
//! The table has the plan and the outline of each class, in the order in which the plans are made. `own` is written {width, count,
//! references}, a reference (offset, place), and a jump {class, at, offset, place}:
//!
//! ```text
//!    at  width  own                          above           outline: width, first
//! C   0      4  {4, 1, [(0, 0)]}             none                     4, jump {C, 0, 0, 0}
//! B   1      5  {1, 1, []}                   {C, 0, 0, 0}             5, jump {C, 0, 1, 1}
//! A   2     13  {13, 4, [(4, 1), (9, 3)]}    none                    13, jump {A, 2, 0, 0}
//! ```
//!
//! - [`Plan::below`] makes the plan of B from its own fields and the outline of C. B has no reference, so `above` is the jump to C: 0 bytes
//!   and 0 fields after B's own.
//! - [`Plan::outline`] of B gives the same jump, counted from the start of B's own fields: 1 byte and 1 field further.
//! - [`Plan::below`] gives A its own fields {8, 2, [(4, 1)]} and, as `above`, the jump of B's outline. [`Plan::join`] then adds the fields
//!   of C's plan: `c` lies after 8 + 1 bytes and 2 + 1 fields, and nothing is left above. It does so if the plan already has a reference,
//!   and both together have at most 32.
//!
//! Instances are laid by `KnownLayouts::set_references`:
//!
//! - An instance of A has 13 bytes. A's plan is enough to lay it: the identifiers at the offsets 4 and 9 are its references, those of the
//!   fields at the places 1 and 3.
//! - An instance of B has 5 bytes. B's own byte is no reference, so `lay_plan` cuts it off, and goes on with the jump {C, 0, 0, 0} and the
//!   4 bytes that are left. `landing` returns the plan of C, whose 4 bytes lie within them. `lay_above` takes the identifier at offset 0
//!   for the reference of the field at the place 1 + 0.
//! - If A and C had more than 32 references together, A's plan would have {8, 2, ..} with the jump {C, 0, 1, 1}: `lay_above` would skip the
//!   byte and the field of B after A's own 8 bytes, and lay C's after them.

ghost use Rattle.std.specs.Prelude.{◌≡◌, ℕ, List, Some, OnOk};
ghost use Rattle.hprof_values.specs.declared.ids.IdSize.{IdSize};
ghost use Rattle.hprof_items.specs.FactValue.{FactValue};
ghost use Rattle.hprof_layouts.specs.declared.slot.Slot.{Slot};
ghost use Rattle.hprof_layouts.specs.Plan.{IsPlan, NoTwoDumps, jump_behind, no_outline, outline_of, plan_below};

use crate::own_fields::OwnLayout;
use std::alloc::AllocError;

/// The next class to lay: one whose own fields have references, with the numbers of bytes and fields before them.
#[derive(Clone, Copy, Debug, PartialEq, Eq)]
pub(crate) struct Jump {
    /// The class.
    pub(crate) class: u64,
    /// The place of its plan, where it is looked for first.
    pub(crate) at: usize,
    /// The number of bytes before its own fields. `usize::MAX` stands for that number and all greater ones.
    pub(crate) offset: usize,
    /// The number of fields before its own fields. `u64::MAX` stands for that number and all greater ones.
    pub(crate) place: u64,
}

/// The part of a class's layout that the plans of its subclasses need.
#[derive(Clone, Copy, Debug, PartialEq, Eq)]
pub(crate) struct Outline {
    /// The number of bytes of all slots. `u128::MAX` stands for that number and all greater ones.
    pub(crate) width: u128,
    /// The first class on the chain of superclasses whose own fields have references.
    pub(crate) first: Option<Jump>,
}

/// The data for laying the instances of a class.
#[derive(Drop)]
pub(crate) struct Plan {
    /// The place where the plan is stored.
    pub(crate) at: usize,
    /// The number of bytes of all slots. `u128::MAX` stands for that number and all greater ones.
    pub(crate) width: u128,
    /// The own fields of the class, and those of its superclasses that the plan covers too.
    pub(crate) own: OwnLayout,
    /// The next superclass whose own fields have references. Its numbers of bytes and fields are counted from the end of `own`.
    pub(crate) above: Option<Jump>,
}

impl Jump {
    /// Returns the jump to the same class from the start of these own fields.
    fn behind(self, own: &OwnLayout) -> Jump
        ensures { result ≡ jump_behind own.now self }
    {
        Jump {
            class: self.class,
            at: self.at,
            offset: self.offset.saturating_add(own.width),
            place: self.place.saturating_add(own.count),
        }
    }
}

impl Outline {
    /// Returns the outline of a layout without slots.
    pub(crate) fn of_nothing() -> Outline
        ensures { result ≡ no_outline }
    {
        Outline {
            width: 0,
            first: None,
        }
    }
}

impl Plan {
    /// Returns the plan of a class with these own fields, whose superclass has this outline. The plan is meant for the place `at`.
    pub(crate) fn below(outline: Outline, at: usize, own: OwnLayout) -> Plan
        ensures { result ≡ plan_below outline at own }
    {
        Plan {
            at,
            width: outline.width.saturating_add(own.width as u128),
            own,
            above: outline.first,
        }
    }

    /// Adds the fields of the plan that it jumps to, and those between, if few of all are references. If memory runs out, the answer is
    /// `AllocError` and the plan is unspecified.
    pub(crate) fn join(&mut self, jump: Jump, above: &Plan) -> Result<(), AllocError>
        ensures { OnOk result ((ids : IdSize) (facts : List FactValue) (class : ℕ) (slots others : List Slot) → NoTwoDumps facts
            → IsPlan ids facts class slots self.old → self.old.above ≡ Some jump → IsPlan ids facts jump.class others above.now
            → IsPlan ids facts class slots self.new) }
    {
        if !self.own.goes_with(jump.offset, &above.own) {
            return Ok(());
        }
        self.own.append(jump.offset, jump.place, &above.own)?;
        self.above = above.above;
        Ok(())
    }

    /// Returns the outline of the class's layout.
    pub(crate) fn outline(&self, class: u64) -> Outline
        ensures { result ≡ outline_of class self.now }
    {
        let first = if self.own.references.is_empty() {
            match self.above {
                None => None,
                Some(jump) => Some(jump.behind(&self.own)),
            }
        } else {
            Some(Jump {
                class,
                at: self.at,
                offset: 0,
                place: 0,
            })
        };
        Outline {
            width: self.width,
            first,
        }
    }
}
