//! Frames, and the splitter.

mod faults;
mod large;
mod memory;
mod places;
mod splitting;
mod writing;
