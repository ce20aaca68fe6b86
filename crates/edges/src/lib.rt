// What the definitions give at the edges of document 01, proved; no functions.
#![tactic(auto)]
