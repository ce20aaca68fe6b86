// No functions: chains of calls over state bytes are lists of calls of demand 3; definitions and laws alone.
#![tactic(auto)]
