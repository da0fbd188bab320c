// The demands about the judge: definitions (specs/) and theorems (proofs/). There is no code here.
#![tactic(auto)]
