// Theorems about the bitmaps' definitions: there is no code. proofs/Listed.antt: the records that are present, one by one. proofs/Trips.antt: import
// after export, export after import. proofs/Exact.antt: each refusal is given exactly if its condition holds. proofs/Unique.antt: one result a call.
#![tactic(auto)]
