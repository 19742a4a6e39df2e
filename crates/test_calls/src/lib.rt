//! What no contract says, by example: each module tries public calls of the crates that its first line names.
#![tactic(auto)]

#[cfg(test)]
mod batches;
#[cfg(test)]
mod edits;
#[cfg(test)]
mod events;
#[cfg(test)]
mod gates;
#[cfg(test)]
mod homes;
#[cfg(test)]
mod maps;
#[cfg(test)]
mod numbers;
#[cfg(test)]
mod options;
#[cfg(test)]
mod runs;
#[cfg(test)]
mod scripts;
#[cfg(test)]
mod shop;
#[cfg(test)]
mod stores;
