// The laws of the report of waiting over runs; no functions.
#![tactic(auto)]
