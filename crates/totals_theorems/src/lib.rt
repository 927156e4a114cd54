// Theorems about the totals' definitions: there is no code. proofs/Exact.antt: each refusal is given exactly if its condition holds. proofs/Unique.antt:
// one result and one content a call. proofs/Halves.antt: a sum's high and low are the only ones; a window's sum always has them, so that 18 is of several
// windows. proofs/Bounds.antt: the least and the greatest. proofs/Together.antt: windows together, cut, twice, empty.
#![tactic(auto)]
