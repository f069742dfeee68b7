//! Laws of the model: theorems over the definitions alone, each the contract of a public function.
#![tactic(auto)]

pub mod entitlement;
pub mod isolation;
pub mod maxima;
pub mod nodes;
pub mod order;
pub mod proposals;
pub mod states;
pub mod worked;
