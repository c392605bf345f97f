//! Tests that cross the crates, of what no document shows: runs over folders and sinks whose calls are short or fail,
//! the real folder, the decoder by pieces, slots, and numbers beyond those of documents.
#![tactic(auto)]

#[cfg(test)]
mod arithmetic;
#[cfg(test)]
mod decoder;
#[cfg(test)]
mod documents;
#[cfg(test)]
mod in_memory;
#[cfg(test)]
mod one_file;
#[cfg(test)]
mod outside_fails;
#[cfg(test)]
mod real_files;
#[cfg(test)]
mod short_sink;
#[cfg(test)]
mod slots;
