// The bench sheet: one table of worked cases (specs/) that the checker computes (proofs/). There is no code here.
#![tactic(auto)]
