//! The blocks of looks: bubbles, costumes and backdrops, size, effects, visibility and layers (scratch-vm,
//! blocks/scratch3_looks.js). The commands of sound belong to them, and do nothing.
#![tactic(auto)]

mod backdrops;
mod block_rows;
mod bubble_texts;
mod bubbles;
mod choices;
mod costume_choice;
mod costumes;
mod dress;
mod effects;
mod instance;
mod layers;
mod sizes;

pub use block_rows::apply;
