// Definitions and theorems only: how a host calls the engine and reads its answers, and what holds of it. There is no code here.
// Theorems of the code go in here; those of the definition alone are of `model`.
#![tactic(auto)]
