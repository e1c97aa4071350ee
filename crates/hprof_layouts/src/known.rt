//! Known layouts, updated as class dumps come.

ghost use Rattle.std.specs.Prelude.{◌≡◌, ◌≢◌, ◌↔◌, ◌+◌, ◌^◌, ◌≤◌, ◌<◌, ◌∷◌, ◌++◌, ℕ, List, [], length, IsTrue, IfNone, IfSome, OnOk, IfOk};
ghost use Rattle.std.specs.Prelude.{Option, Some, vec_len};
ghost use Rattle.std.specs.Option.{option_copied};
ghost use Rattle.hprof_values.specs.declared.ids.IdSize.{IdSize};
ghost use Rattle.hprof_items.specs.FactValue.{FactValue};
ghost use Rattle.hprof_heap.specs.ClassDump.{class_value};
ghost use Rattle.hprof_heap.specs.Classes.{HasNoDump};
ghost use Rattle.hprof_layouts.specs.declared.slot.Slot.{Slot};
ghost use Rattle.hprof_layouts.specs.Fields.{width_of_slots};
ghost use Rattle.hprof_layouts.specs.declared.plan.Plan.{Plan};
ghost use Rattle.hprof_layouts.specs.Known.{ArePlans, AreWoken, HasDumpMore, HasLayout, IsOutlineOf, Knows, plan_of};
ghost use Rattle.hprof_layouts.specs.OwnFields.{references_in};
ghost use Rattle.hprof_layouts.specs.Plan.{IsJump, IsOutline, IsPlan, IsPlanBelow};
ghost use Rattle.hprof_layouts.specs.References.{AreWanted, wanted_of};
ghost use Rattle.hprof_layouts.specs.Waking.{CanWake, IsWaking, Wakes, number_waiting};

use crate::own_fields::{OwnLayout, own_fields};
use crate::plan::{Jump, Outline, Plan};
use crate::reference::{Reference, Wanted};
use crate::waiting_lists::WaitingLists;
use hprof_heap::ClassDump;
use hprof_tables::HintedMap;
use hprof_values::IdSize;
use std::alloc::{AllocError, Global};

/// A class whose dump came, but whose layout is not known yet.
#[derive(Drop)]
struct Waiting {
    /// The class.
    class: u64,
    /// Its own fields.
    own: OwnLayout,
}

/// The plan of each class whose layout is known. Instances are laid with it. A class waits until the layout of its superclass is known.
#[derive(Drop)]
pub struct KnownLayouts {
    alloc: Global,
    plans: HintedMap<Plan>,
    waiting: WaitingLists<Waiting>,
}

impl KnownLayouts {
    /// Returns the known layouts of no classes. Allocates nothing.
    pub fn new(alloc: Global) -> KnownLayouts
        ensures { (ids : IdSize) → Knows ids [] result }
    {
        KnownLayouts {
            alloc,
            plans: HintedMap::new(alloc),
            waiting: WaitingLists::new(alloc),
        }
    }

    /// Returns whether the layout of the class is known.
    #[inline(always)]
    pub fn knows(&self, class: u64) -> bool
        ensures { (ids : IdSize) (facts : List FactValue) → Knows ids facts self.now → IsTrue result ↔ HasLayout facts class }
    {
        self.is_ready(class)
    }

    /// Returns whether the class is 0 or has a plan.
    #[inline(always)]
    fn is_ready(&self, class: u64) -> bool
        ensures { IsTrue result ↔ CanWake (plan_of self.now) class }
    {
        class == 0 || self.plans.contains_key(class)
    }

    /// Returns the outline of a class's layout, if it is known. The plans of its subclasses are made with it.
    fn outline(&self, class: u64) -> Option<Outline>
        ensures some { IfSome result (λ outline. IsOutlineOf self.now class outline) }
        ensures ready { IfNone result (CanWake (plan_of self.now) class → ⊥) }
    {
        match self.plans.get(class) {
            Some(plan) => Some(plan.outline(class)),
            None if class == 0 => Some(Outline::of_nothing()),
            None => None,
        }
    }

    /// Returns the plan of a class, looking at a place first. The answer is the same for every place.
    #[inline(always)]
    fn plan_at(&self, class: u64, at: usize) -> Option<&Plan>
        ensures { option_copied result ≡ plan_of self.now class }
    {
        match self.plans.rows().get(at) {
            Some(row) if row.0 == class => Some(&row.1),
            _ => self.plans.get(class),
        }
    }

    /// Takes the first class dump of a class, and returns the classes whose layouts become known by it, each once.
    ///
    /// Identifiers have the size `ids`. If memory runs out, the answer is `AllocError` and the known layouts are unspecified.
    pub fn add_class(&mut self, dump: &ClassDump<'_>, ids: IdSize) -> Result<Vec<u64>, AllocError>
        ensures ok { OnOk result ((facts more : List FactValue) → Knows ids facts self.old → HasNoDump facts dump.now.id
            → HasDumpMore facts (class_value dump.now) more → Knows ids more self.new) }
        ensures woken { IfOk result (λ woken. (facts more : List FactValue) → Knows ids facts self.old → HasNoDump facts dump.now.id
            → HasDumpMore facts (class_value dump.now) more → AreWoken facts more woken.items) }
    {
        let mut woken = Vec::new(self.alloc);
        // A dump of class 0 is no class of any chain.
        if dump.id == 0 {
            return Ok(woken);
        }
        let own = own_fields(self.alloc, dump, ids)?;
        self.waiting.add(
            dump.parent,
            Waiting {
                class: dump.id,
                own,
            },
        )?;
        if self.is_ready(dump.parent) {
            self.wake_below(dump.parent, &mut woken)?;
            self.wake_all(&mut woken)?;
        }
        Ok(woken)
    }

    /// Returns the plan of a class with these own fields, whose superclass has this outline. The plan is meant for the place `at`.
    fn make_plan(&self, outline: Outline, at: usize, own: OwnLayout) -> Result<Plan, AllocError>
        ensures { IfOk result (λ plan. (ids : IdSize) (facts : List FactValue) (slots : List Slot) → ArePlans ids facts (plan_of self.now)
            → IsOutline ids facts slots outline → IsPlanBelow ids facts slots own plan) }
    {
        let mut plan = Plan::below(outline, at, own);
        let Some(jump) = plan.above else {
            return Ok(plan);
        };
        let Some(above) = self.plan_at(jump.class, jump.at) else {
            return Ok(plan);
        };
        plan.join(jump, above)?;
        Ok(plan)
    }

    /// Makes the plans of the classes that wait for a class, which has a plan, and appends these classes to `woken`.
    fn wake_below(&mut self, class: u64, woken: &mut Vec<u64>) -> Result<(), AllocError>
        ensures ok { OnOk result ((ids : IdSize) (facts : List FactValue) (before : ℕ → Option Plan) (pending : List ℕ)
            → CanWake (plan_of self.old) class → IsWaking ids facts before self.old woken.old.items (class ∷ pending)
            → Wakes ids facts before self.new woken.old.items woken.new.items pending) }
        ensures counted { OnOk result (number_waiting self.new + vec_len woken.new ≡ number_waiting self.old + vec_len woken.old) }
    {
        let Some(outline) = self.outline(class) else {
            return Ok(());
        };
        let Some(waiting) = self.waiting.take(class) else {
            return Ok(());
        };
        for Waiting { class: below, own } in waiting {
            let at = self.plans.len();
            let plan = self.make_plan(outline, at, own)?;
            self.plans.insert(below, plan)?;
            woken.push(below)?;
        }
        Ok(())
    }

    /// Makes the plans of the classes that wait for a class in `woken`, and appends these classes, until none waits for one of them.
    fn wake_all(&mut self, woken: &mut Vec<u64>) -> Result<(), AllocError>
        ensures { OnOk result ((ids : IdSize) (facts : List FactValue) (before : ℕ → Option Plan)
            → IsWaking ids facts before self.old woken.old.items woken.old.items
            → IsWaking ids facts before self.new woken.new.items []) }
    {
        let mut next = 0;
        while next < woken.len() {
            self.wake_below(woken[next], woken)?;
            next += 1;
        }
        Ok(())
    }

    /// Returns the plan that a jump leads to, if the fields that the plan covers lie within `room` bytes.
    #[inline(always)]
    fn landing(&self, jump: Jump, room: usize) -> Option<&Plan>
        ensures plan { IfSome result (λ plan. plan_of self.now jump.class ≡ Some plan.now) }
        ensures some { IfSome result (λ plan. 0 < plan.now.own.width) }
        ensures within { IfSome result (λ plan. jump.offset + plan.now.own.width ≤ room) }
        ensures none { IfNone result ((plan : Plan) → plan_of self.now jump.class ≡ Some plan → 0 < plan.own.width
            → jump.offset + plan.own.width ≤ room → ⊥) }
    {
        let plan = self.plan_at(jump.class, jump.at)?;
        let end = jump.offset.checked_add(plan.own.width)?;
        if plan.own.width == 0 || room < end {
            return None;
        }
        Some(plan)
    }

    /// Appends the wanted references of slots. The bytes are the values of the slots, and `place` fields come before them. No slot before
    /// the class that the jump leads to is a reference.
    fn lay_above(
        &self,
        first: Jump,
        bytes: &[u8],
        ids: IdSize,
        place: u64,
        wanted: Wanted,
        references: &mut Vec<Reference>,
    ) -> Result<(), AllocError>
        ensures { OnOk result ((facts : List FactValue) (slots : List Slot) → Knows ids facts self.now → IsJump ids facts slots first
            → width_of_slots ids slots ≡ length bytes.now → place + length slots < 2 ^ 64
            → references.new.items ≡ references.old.items ++ wanted_of wanted (references_in ids place slots bytes.now)) }
    {
        let mut jump = first;
        let mut rest = bytes;
        let mut before = place;
        loop {
            let Some(plan) = self.landing(jump, rest.len()) else {
                return Ok(());
            };
            let (_, landed) = rest.split_at(jump.offset);
            let start = before.saturating_add(jump.place);
            plan.own
                .push_references(landed, ids, start, wanted, references)?;
            let Some(above) = plan.above else {
                return Ok(());
            };
            (_, rest) = landed.split_at(plan.own.width);
            before = start.saturating_add(plan.own.count);
            jump = above;
        }
    }

    /// Appends the wanted references of an instance. Its class has this plan, and its slots have these bytes.
    #[inline(always)]
    fn lay_plan(
        &self,
        plan: &Plan,
        bytes: &[u8],
        ids: IdSize,
        wanted: Wanted,
        references: &mut Vec<Reference>,
    ) -> Result<(), AllocError>
        ensures { OnOk result ((facts : List FactValue) (class : ℕ) (slots : List Slot) → Knows ids facts self.now
            → IsPlan ids facts class slots plan.now → width_of_slots ids slots ≡ length bytes.now
            → references.new.items ≡ references.old.items ++ wanted_of wanted (references_in ids 0 slots bytes.now)) }
    {
        plan.own.push_references(bytes, ids, 0, wanted, references)?;
        // Most instances end here.
        let Some(jump) = plan.above else {
            return Ok(());
        };
        let Some((_, rest)) = bytes.split_at_checked(plan.own.width) else {
            return Ok(());
        };
        self.lay_above(jump, rest, ids, plan.own.count, wanted, references)?;
        Ok(())
    }

    /// Sets `references` to the wanted references of an instance of the class, in the order of its fields. Returns whether the layout of
    /// the class is known.
    ///
    /// `bytes` are those of the instance. There are no references if the layout is not known, or has another number of bytes. The class is
    /// looked up once. If memory runs out, the answer is `AllocError` and the contents of `references` are unspecified.
    #[inline(always)]
    pub fn set_references(
        &self,
        class: u64,
        bytes: &[u8],
        ids: IdSize,
        wanted: Wanted,
        references: &mut Vec<Reference>,
    ) -> Result<bool, AllocError>
        ensures wanted { OnOk result ((facts : List FactValue) → Knows ids facts self.now
            → AreWanted ids facts class bytes.now wanted references.new.items) }
        ensures known { IfOk result (λ known. (sizes : IdSize) (facts : List FactValue) → Knows sizes facts self.now
            → IsTrue known ↔ HasLayout facts class) }
    {
        references.clear();
        let Some(plan) = self.plans.get(class) else {
            // The layout of class 0 has no slots.
            return Ok(class == 0);
        };
        if plan.width == bytes.len() as u128 {
            self.lay_plan(plan, bytes, ids, wanted, references)?;
        }
        Ok(true)
    }
}
