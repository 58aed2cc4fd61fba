//! Whole runs of the model, computed by the checker: schedules whose transcripts agree, line by line, with those that
//! were worked out for them (`proofs/Runs`). No code of it runs. `tools/test` plays further ones with the program
//! (`tools/data/rows`).
#![tactic(auto)]
