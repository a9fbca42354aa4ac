// The rules of cutting: what document 01 says, as definitions (specs/), and what follows from them (proofs/).
// There is no code here. Every contract of the other crates cites these definitions.
#![tactic(auto)]
