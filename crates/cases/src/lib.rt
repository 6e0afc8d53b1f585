// The cases that document 01 marks for proof: specs/Cases.antt has the table, and proofs/Claim.antt
// the one claim over its rows.
#![tactic(auto)]
