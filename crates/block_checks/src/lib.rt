//! The tests of the blocks of a project, in their order, and what is kept of blocks that are well linked: ranks that
//! fall along every link, and which blocks belong to checked scripts. Everything takes the time of all blocks and
//! links, and none of it recurses.
#![tactic(auto)]

mod block_links;
mod checked_scripts;
mod depth;
mod fields;
mod inputs;
mod loose_blocks;
mod places;
mod roles;
mod rows;
mod stop;
mod test_order;

pub use block_links::BlockLinks;
pub use checked_scripts::in_scripts;
pub use roles::is_menu;
pub use test_order::test_blocks;
