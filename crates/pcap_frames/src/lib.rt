//! Classic libpcap captures, format 2.4: the frames of a file or its first fault, read as a stream in
//! pieces of any size.
#![tactic(auto)]

mod capture_reader;
mod fault;
mod file_order;
mod first_bytes;
mod frame;
mod header;
mod laws;
mod reader;
mod reading;
mod visitor;

pub use capture_reader::CaptureReader;
pub use fault::{CaptureFault, FaultKind, FeedFault, ReadRefusal};
pub use file_order::FileOrder;
pub use first_bytes::FirstBytes;
pub use frame::Frame;
pub use laws::captures_are_decided;
pub use reader::FrameReader;
pub use reading::{read_frames, read_with};
pub use visitor::FrameVisitor;
