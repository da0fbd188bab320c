// The 2007 paper as definitions (specs/) and its safety, proved of them alone (proofs/). There is no code here.
#![tactic(auto)]
