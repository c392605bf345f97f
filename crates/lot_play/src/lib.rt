//! The player: reads a document, evaluates a frame of it, and writes the frame as SVG 1.1.
//!
//! [`run`] is the whole program over any folder and sink: those of this machine, or those in memory.
#![tactic(auto)]

mod answer;
mod faultless;
mod frame;
mod judge;
mod outside;
mod player;
mod reading;
mod request;
mod status;
mod task;
mod writing;

pub use faultless::{accepted_document_has_answers, faultless_document_has_value};
pub use outside::{Folder, RealFolder, RealSink, Sink, SinkRefusal, SureFolder, SureSink};
pub use player::run;
pub use status::Status;
