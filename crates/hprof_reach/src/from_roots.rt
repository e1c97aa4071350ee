//! Walks from GC roots.

ghost use Rattle.std.specs.Prelude.{List};
ghost use Rattle.hprof_values.specs.declared.ids.IdSize.{IdSize};
ghost use Rattle.hprof_items.specs.FactValue.{FactValue};
ghost use Rattle.hprof_reach.specs.Reaching.{IsStart, IsStepBy};

use crate::chosen_edges::ChosenEdges;
use hprof_search::WalksOf;
use std::marker::PhantomData;

/// Walks that start at the nodes that GC roots keep alive, along chosen edges to nodes. Facts describe all of them.
pub(crate) struct FromRoots<E> {
    edges: PhantomData<E>,
}

impl<E: ChosenEdges> WalksOf for FromRoots<E> {
    ghost Told = { IdSize × List FactValue × E.Told };

    ghost starts = { λ told. IsStart told.1 };

    ghost steps = { λ told. IsStepBy (E.chosen told.2 told.0 told.1) told.0 told.1 };
}
