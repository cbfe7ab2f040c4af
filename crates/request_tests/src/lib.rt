//! Tests of the top call, of libraries and sinks that fail in mid-stream, of fillers that offer
//! what isn't usable, and of traces with more than one observer, which no row of words shows. They
//! stand apart from the other tests of calls, so that those needn't wait for the proof of the top
//! call.
//! Stands on the top call and on the outside.
#![tactic(auto)]

#[cfg(test)]
mod fills;
#[cfg(test)]
mod outside;
#[cfg(test)]
mod requests;
#[cfg(test)]
mod traces;
