//! Tests of heaps and of stored objects: the memory that rows take and joins give back, which objects stay in their part, and parts and
//! scratch that are not as they were.
#![tactic(auto)]

#[cfg(test)]
mod batches;
#[cfg(test)]
mod expecting;
#[cfg(test)]
mod joining;
#[cfg(test)]
mod passes;
#[cfg(test)]
mod rooms;
#[cfg(test)]
mod runs;
#[cfg(test)]
mod samples;
#[cfg(test)]
mod storing;
