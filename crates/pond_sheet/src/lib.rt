// Records as a person types them or a spreadsheet exports them: a text with a record a line, judged whole and turned into the bytes that `fill` takes.
// Above it: the commands that fill the archive, and run. Below it: numbers, and how the console speaks. No bench is here.
//
// A line has four numbers: farm, pond, day and concentration. Blanks, tabs, or one comma or semicolon stand between them. Blank lines and those that begin
// with # are passed over, and so is a heading, if it is the first line that is neither.
#![tactic(auto)]

mod complaints;
mod fields;
mod lines;

pub use lines::read;
