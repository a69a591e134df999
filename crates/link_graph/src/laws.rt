//! Laws of the definitions, as contracts of functions that do nothing.

ghost use Rattle.link_graph.specs.Ranking.{RanksRuleOutCycles, RanksServeAPart};

/// Where there are ranks, no block lies on a cycle.
pub fn ranks_rule_out_cycles()
    ensures { RanksRuleOutCycles }
{}

/// Ranks for all links are ranks for some of the links, as those of inputs alone.
pub fn ranks_serve_a_part()
    ensures { RanksServeAPart }
{}
