// Definitions and theorems only: the engine as lists and records, and what holds of it. There is no code here.
// The rules of the engine go in here, with the names of engine.rs; how code holds its state is of the crates above. README.md says how to read it.
#![tactic(auto)]
