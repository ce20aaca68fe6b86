// Runs the cases of stdin on the entries of the crates `calls` and `event_calls`; stdout has document 01's answers.
#![tactic(auto)]

mod answers;
mod book;
mod differences;
mod entries;
mod hex;
mod lines;
mod script;

fn main() {
    let mut text = io::large_buffer();
    let n = io::read_full(0, &mut text);
    script::run(&text[..n]);
}
