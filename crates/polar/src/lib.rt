// Soft values, the steps from one height to the next within the lent workspace, the transform in place, and discrepancies.

#![tactic(auto)]

pub mod butterfly;
pub mod distance;
pub mod layers;
pub mod values;
