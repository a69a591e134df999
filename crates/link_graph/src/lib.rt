//! Blocks that link to blocks: dangling links, cycles, ranks that fall along every link, what is reached, how deep
//! blocks nest. Everything takes the time of all blocks and links, and none of it recurses.
#![tactic(auto)]

mod components;
mod cycles;
mod depth;
mod graph;
mod laws;
mod ranks;
mod search;
mod trail;
mod walk;

pub use cycles::rank;
pub use depth::first_deep;
pub use graph::{Dangling, Graph};
pub use laws::{ranks_rule_out_cycles, ranks_serve_a_part};
pub use ranks::{Ranking, Ranks};
pub use search::reach;
