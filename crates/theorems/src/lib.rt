// Theorems about the definitions: the words in specs/, the theorems in proofs/, no code. Nothing is assumed.
//
// Read first specs/Demand3 and proofs/Demand3 (demand 3), then specs/Audit and proofs/Audit (the auditor's theorem), then specs/Batch and
// proofs/Batch (the batch listing).
//
// The words, specs/:
//   Exact         "Given exactly if": the refusals before one, an accepted answer, a sound source
//   Demand3       a run of calls on a new filter, every bound as read, and what the calls are to answer
//   Runs          more of runs: none stays, lists and walks, a tie, runs on a scan, which runs are acceptable
//   Audit         record numbers that are sought in a presence column, and the list of filled logs
//   Batch         one listing, what it leaves in its two arrays, and the part of the output that each window has
//   Table         P1 to P12, and rows of our own
//   Modes         the two modes of upper bounds beside each other
//   Answered      single answers of a run: which searches were refused, which element a call may give
//   Resets        calls on a filter, resets among them: the filter that they leave, and its initial state
//   Comments      what the Rust's doc comments on filters and steps come to
//   Empty         the empty column
//   Carried       document 01's `current` with the column, the three conditions of 6, and rows of the table for a scan that carries its value
//   Places        a walk through a column from place to place
//   Cuts          a window and its cuts, several people's parts, chained seeks, and rows of the table for where they end
//
// The theorems, proofs/:
//   Demand3       a run of accepted calls answers what is expected; none stays; next alone lists; any run, refused calls among them
//   Modes         where the exclusive bound wins demand 3 has no clause about ties; without a tie the modes answer and list alike
//   Each          demand 3 answer by answer: the j-th answer is the earliest such element, and none exactly if there is none
//   AcceptedRuns  a run on a new filter is accepted exactly if it is acceptable
//   Audit         a number is answered with itself exactly if it is in the column; the filled logs are those that lack it; through a filter
//   Handed        the same of the list that a presence column was built from
//   Refused       on a rising presence column no search is refused, so no log is filled by a refusal; on another each is, and would be
//   ScanRuns      runs on one scan: nothing is stepped past, next alone gives every element, all answer what is expected
//   RunCalls      a run of calls in one call: refused exactly if, equal to single calls, cut in two, demand 3 and the auditor's theorem of one call
//   Batch         a window's part of the output is what next alone gives; its count; the sum; what is left alone; windows that repeat
//   Table         the table's one theorem, computed
//   Unique        two results that meet one promise are equal, a line a call
//   Exactly       "Given exactly if" of any call: what refuses, what is accepted, what a refusal leaves
//   ColumnCalls   the same of each call on a column, a line a call and refusal
//   ScanCalls     of each call on a scan
//   FilterCalls   of each call on a filter
//   ListingCalls  of the batch listing
//   Carried       every call keeps a scan sound; `current` answers as with the column; no repair; where it answers though others refuse
//   DocComments   the Rust's doc comments of column and scan, sentence by sentence
//   FilterStates  those of the filter's three states, and what is true where they are wrong
//   BoundComments those of the filter's bounds
//   StepComments  those of steps
//   Reset         a filter's reset after any calls: a new filter on the scan as it stands
//   EmptyColumn   the empty column, call by call
//   Columns       each index lies in one run, every element fits, short windows rise
//   Places        what a place tells of the elements that follow; a walk from place to place meets each run once and ends at the length
//   Cuts          a listing of the parts of a rising window is that of the whole, in one call and in several people's
//   CutRuns       the same asked one by one: runs of next on two scans, and through two filters
//   Chained       a seek after a seek of a target not above its own leaves what it would at once; rising sequences of seeks
//   ChainedFilter the same through a filter: Within, After, refused, and new with a lower bound
//   Bounds        the folded bound is met exactly if every bound is, but for a tie of upper bounds where the inclusive one wins
//
// What stands behind them, proofs/:
//   Moves         where a next or seek leads, and that it keeps to its window
//   Windows       the order of the elements of a window that rises
//   Expected      the laws of the expected answers
//   FilterRuns    runs of steps on a filter: each call lands at an index, and the upper bound decides
//   Folded        a run of accepted calls is its steps, and goes by its two folded bounds
//   Seeks         numbers that are sought in rising order, each as if it were sought alone
//   Parts         windows that are listed one after the other: the values and the count of each
#![tactic(auto)]
