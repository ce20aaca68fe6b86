// The run of a sheet and what is printed of it: definitions in specs/ alone. The functions are in `number_text`, `word_text`, `answer_text`, `run_text`, `run` and `linebook_text`.
#![tactic(auto)]
