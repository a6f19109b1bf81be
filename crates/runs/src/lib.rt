// Runs: all that holds of any list of the five calls with their answers.
#![tactic(auto)]
