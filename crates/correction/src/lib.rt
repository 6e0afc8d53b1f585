// What a corrected packet is (document 02, W-214), and that over a path it has every residence once:
// specs/ has the definitions and the theorems, and proofs/ their proofs.
#![tactic(auto)]

pub mod layout;
