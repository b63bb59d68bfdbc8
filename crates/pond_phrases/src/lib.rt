// Phrases with numbers in them, as `# word% from # on`.
// Above it: whatever says a sentence. Below it: how the console speaks.
#![tactic(auto)]

mod marks;

pub use marks::say;
