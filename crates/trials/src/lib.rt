// What comes out of the definitions by computation: the example sheet of document 01, trials of demand 3; no functions.
#![tactic(auto)]
