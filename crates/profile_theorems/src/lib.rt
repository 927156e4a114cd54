// Theorems about the reading profiles' definitions: there is no code. proofs/Lists.antt: each record of a window is in exactly one list, once, in
// order; the counts; cut windows; profile 2 is the opposite of profile 1. proofs/Exact.antt: each refusal is given exactly if its condition holds.
// proofs/Unique.antt: one result a call. proofs/Agrees.antt: the seeks of a scan, the auditor's list of filled logs, and the bitmap say the same.
#![tactic(auto)]
