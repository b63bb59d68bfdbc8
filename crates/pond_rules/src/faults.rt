// The faults of document 01: for each number one plain sentence that names the rule which the instruction broke.
// Above it: what is told of a faulted session. Below it: how the console speaks.
use text::line;

// The sentence of a fault, without its number and place: that line of the page, from line 0 up; line 0 is for every number that has none.
pub fn fault(number: u8) {
    let k = if number <= 10 { number } else { 0 };
    pond_say::text(line(
        b"a number that document 01 does not have\n\
          an instruction, or a part of it, lies outside the code\n\
          an instruction that this runner does not carry, or did not carry when the report came to it\n\
          too few words on the stack\n\
          the stack is full: the report needs more words\n\
          a division by zero\n\
          an address that is none of the report's words, or one that can only be read, or a word that the constant pool does not have\n\
          a jump out of the code\n\
          a call of a routine that the segment does not have\n\
          a link or a mark that was overwritten\n\
          a value outside its subrange",
        k,
    ));
}
