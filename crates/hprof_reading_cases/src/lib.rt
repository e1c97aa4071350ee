//! Tests of the crates that read parts: what devices call of std, the memory and the time that long and hostile items take, and names as
//! units.
#![tactic(auto)]

#[cfg(test)]
mod devices;
#[cfg(test)]
mod expecting;
#[cfg(test)]
mod lengths;
#[cfg(test)]
mod lists;
#[cfg(test)]
mod samples;
#[cfg(test)]
mod units;
