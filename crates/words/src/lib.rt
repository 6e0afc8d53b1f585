// The table of waiting records as 64 words, in specs/ and proofs/: what the words mean, what each
// operation writes, and that this is what document 01 says of the slots. The functions are the crate
// `table`.
#![tactic(auto)]
