// The judge: how a judgment is sought, step by step, each step a line of a listing.
#![tactic(auto)]
