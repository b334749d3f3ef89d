// The map as a scenario tells it: the chart, the columns of the results, the size and the hexes.
#![tactic(auto)]

pub mod area;
pub mod chart;
pub mod column;
pub mod land;
