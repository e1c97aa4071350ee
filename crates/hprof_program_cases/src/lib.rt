//! Tests of the engine, the reports and the program that do not fit a line in the table of worked cases: counts of pushes, memory that is
//! given back, generated parts, texts of faults that no small part has, labels that words mean, and the real disk.
#![tactic(auto)]

#[cfg(test)]
mod answers;
#[cfg(test)]
mod disk;
#[cfg(test)]
mod expecting;
#[cfg(test)]
mod generated;
mod laws;
#[cfg(test)]
mod meant_labels;
#[cfg(test)]
mod old_dumps;
#[cfg(test)]
mod products;
#[cfg(test)]
mod pushes;
#[cfg(test)]
mod rooms;
#[cfg(test)]
mod samples;
#[cfg(test)]
mod words;

pub use laws::call_laws;
