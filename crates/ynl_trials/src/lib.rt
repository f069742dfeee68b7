//! Tests of what no text shows: calls on lines, saved states, amounts, seeds and tables; clusters, views and books
//! that are refused memory, and readers that fail once; threads, receipts and sessions. The crates themselves have
//! none, since a crate with tests is proved twice.
#![tactic(auto)]

#[cfg(test)]
mod amounts;
#[cfg(test)]
mod callers;
#[cfg(test)]
mod cluster;
#[cfg(test)]
mod crew;
#[cfg(test)]
mod events;
#[cfg(test)]
mod evidence;
#[cfg(test)]
mod jobs;
#[cfg(test)]
mod journals;
#[cfg(test)]
mod lines;
#[cfg(test)]
mod load;
#[cfg(test)]
mod plans;
#[cfg(test)]
mod receipts;
#[cfg(test)]
mod refusals;
#[cfg(test)]
mod saved;
#[cfg(test)]
mod seeds;
#[cfg(test)]
mod sessions;
#[cfg(test)]
mod sights;
#[cfg(test)]
mod streams;
#[cfg(test)]
mod tables;
#[cfg(test)]
mod values;
#[cfg(test)]
mod views;
#[cfg(test)]
mod watch;
#[cfg(test)]
mod workers;
#[cfg(test)]
mod writer;
