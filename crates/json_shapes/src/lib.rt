//! Readers of documents that tell the path of the first value that has not its shape.
//!
//! A reader takes the place of a value and the value, and gives what it tells or the first fault:
//!
//!     fn costume(alloc: Global, place: &Place, json: &Json) -> Result<Text, Fault>
//!         ensures { Reads (λ t. t) result (costume_of place.now (tree json.now)) }
//!     {
//!         let members = members(alloc, place, json)?;
//!         let name = required_text(alloc, place, members, "name")?;
//!         Ok(name.clone()?)
//!     }
//!
//! The parts are read by their kinds (`text`, `members`), by name (`required`, for a member that has
//! to be there; `defaulted`, where absent and null are the default; `given`, where absent alone is),
//! or by their places in a list (`item`). A reader inside is handed the place of its part, which
//! borrows the one round it: `costumes(alloc, &place.member("costumes"), list)?`. So no path is made
//! but where a fault is told.
//!
//! The definition beside it is a chain of the same words in specs/Shapes.antt, each step bound by
//! `>>=`: `costume_of at t = members at t >>= required text (codes "name") at`. Chains prove with no
//! proof file. A loop over parts keeps `after READ (each_from i costume_of place REST) ≡ each ..`, in
//! one line (specs/Each.antt). src/tests/sprite.rt has a whole reader.
#![tactic(auto)]

mod by_kind;
mod by_name;
mod fault;
mod place;

pub use by_kind::{digits, item, item_text, items, members, text, truth};
pub use by_name::{
    defaulted_items, defaulted_members, defaulted_truth, given_members, given_truth, optional_text,
    present, required, required_items, required_members, required_text, required_truth,
};
pub use fault::Fault;
pub use place::Place;
