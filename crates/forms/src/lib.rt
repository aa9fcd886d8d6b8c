// A form's payload read by where its parts lie, and whether it loads. Nothing is written here.
#![tactic(auto)]

pub mod blocks;
pub mod bytes;
pub mod form;
pub mod header;
mod records;
mod slots;
