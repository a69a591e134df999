//! The text of a frame: the stage and the sprites, the question and the monitors (docs/formats.md).
#![tactic(auto)]

mod effects;
mod frame;
mod instances;
mod labels;
mod monitors;
mod names;
mod shown_values;
mod text;
mod told_values;
mod values;
mod watches;
mod words;
mod writer;

pub use frame::View;
pub use text::frame_text;
pub use writer::FrameWriter;
