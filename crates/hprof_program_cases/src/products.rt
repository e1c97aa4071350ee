//! Products that are refused, or run out of memory, while they are written.

ghost use Rattle.std.specs.Prelude.{⊤};

use crate::expecting::equal;
use crate::samples::readers_of;
use hprof_devices::{Device, Target};
use hprof_engine::{HeapFault, Product, ProductFault, Summaries, ToolFault, make_to};
use hprof_fixtures::HEADER;
use hprof_heap::Heap;
use hprof_stream::{Limits, PartSummary};
use std::alloc::{AllocError, Global};
use std::process::Abort;
use std::test::Fail;

// A product that nothing is written of: it stops at once.
#[derive(Clone, Copy)]
struct Stopped {
    stop: ProductFault,
}

impl Summaries for Stopped {
    ghost has_room = { λ product kept more. ⊤ };

    ghost holds = { λ product kept summaries. ⊤ };

    ghost takes_room = { λ product parts. ⊥ };

    type Kept = ();

    fn with_room(&self, _alloc: Global, _parts: usize) -> Result<(), AllocError> {
        Ok(())
    }

    fn keep(&self, _kept: &mut (), _summary: PartSummary) {}

    ghost no_room = { λ product takes. takes };
}

impl Product for Stopped {
    ghost use Rattle.std.specs.Prelude.{◌≡◌, [], refl};
    ghost use Rattle.std.proofs.Common.{sym, ◌∙◌};

    ghost is_text = { λ product summaries heap text. text ≡ [] };

    ghost refuses = { λ product refusal heap. ⊤ };

    ghost takes_memory = { λ product. ⊤ };

    fn write<W: Target>(
        &self,
        _alloc: Global,
        _kept: &(),
        _heap: &Heap,
        target: &mut W,
    ) -> Result<(), ProductFault> {
        match self.stop {
            ProductFault::Refused(refusal) => Err(ProductFault::Refused(refusal)),
            ProductFault::OutOfMemory => match target.push(&[]) {
                Ok(_) => Err(ProductFault::OutOfMemory),
                Err(fault) => Err(ProductFault::Write(fault)),
            },
            ProductFault::Write(_) => Ok(()),
        }
    }

    ghost one_text = { λ product summaries heap one other is is_too. is ∙ sym is_too };
}

// What the engine answers where the product stops so, and how many bytes were written.
fn check_stopped(
    rt: &impl Abort,
    alloc: Global,
    stop: ProductFault,
    expected: ToolFault,
) -> Result<(), Fail> {
    let mut readers = readers_of(alloc, &[HEADER])?;
    let mut target = Device::new(Vec::new(alloc));
    let answer = make_to(
        alloc,
        &Stopped { stop },
        &mut readers,
        &mut target,
        Limits::usual(),
    );
    equal(rt, answer.err(), Some(expected));
    equal(rt, target.into_inner().len(), 0);
    Ok(())
}

#[test]
fn products_that_stop(rt: HostRuntime) -> Result<(), Fail> {
    let cases = [
        (
            ProductFault::Refused(HeapFault::DumpTooLong),
            ToolFault::Refused(HeapFault::DumpTooLong),
        ),
        (
            ProductFault::Refused(HeapFault::NoClass),
            ToolFault::Refused(HeapFault::NoClass),
        ),
        (ProductFault::OutOfMemory, ToolFault::OutOfMemory),
    ];
    for (stop, fault) in cases {
        check_stopped(&rt, rt.alloc(), stop, fault)?;
    }
    Ok(())
}
