// `help` and `help COMMAND`: one page, of which a line that begins with a blank belongs to the command above it and is shown with that command alone.
// Above it: the console. Below it: how the console speaks.
use text::{same, word};

// What a person sees first.
pub fn welcome() {
    pond_say::text(
        b"pond: checks, lists, turns and runs p-code segments, and keeps a bench on which many farms' reports run side by side.\n\
          help lists the commands, help COMMAND says more of one, exit ends.\n",
    );
}

// Every command in one line, where no word is given; else what is said of that command. Answers whether anything is.
pub fn help(command: &[u8]) -> bool {
    let files = on_files(command);
    let bench = on_bench(command);
    files || bench
}

fn on_files(command: &[u8]) -> bool {
    chosen(
        b"check FILE                     the header numbers and routines of a segment, or why it is refused\n\
          list FILE                      the instructions of a segment\n\
          \x20 list FILE routine 2: those of one routine; list FILE near 46: some before and behind a byte.\n\
          turn FILE OUT                  writes the segment with the other byte sex to OUT\n\
          \x20 OUT is a new file, or a regular file that keeps its mode; a link, a folder, a device or a pipe is refused.\n\
          \x20 A file whose name is a number is given as ./0.\n\
          run FILE [WORDS [STEPS]]       runs a segment on a bench of its own: how it ended, how deep its stack went, and its words\n\
          \x20 run FILE [WORDS [STEPS]] with ARCHIVE: \
          the shared words are those of the file ARCHIVE. WORDS is 1000 if not given, or 250 more than the segment needs;\n\
          \x20 STEPS is 1000000000. A report that is not finished then is a failure.\n\
          \x20 run FILE [WORDS [STEPS]] with ARCHIVE for FARM: ARCHIVE is a text file of records, and the report sees those of that farm.\n\
          demo                           two farms on one bench, and the spring accident tried again\n",
        command,
    )
}

fn on_bench(command: &[u8]) -> bool {
    chosen(
        b"bench N S                      a new bench of N words, the first S of them shared\n\
          \x20 All slots, sessions and names before it are gone.\n\
          \x20 bench N records FILE: as many are shared as the records of a text file take, and they are filled from it.\n\
          fill FILE                      fills shared words, two bytes a word, least byte first\n\
          \x20 Not while a session is open: another farm's records could come to lie in what it sees.\n\
          records FILE                   fills shared words from a text: a record a line, farm, pond, day, concentration\n\
          \x20 Blanks, tabs, commas or semicolons between the numbers; blank lines, lines that begin with # and one heading are passed over.\n\
          \x20 The lines are in the order of their farm numbers, and the file has just as many records as there is room for: see help bench.\n\
          \x20 Not while a session is open.\n\
          archive [FARM]                 the shared words as an archive: accepted, with its farms, or why not; or one farm's records\n\
          load SLOT FILE                 loads a segment into a slot: 0 to 15, or a name of yours\n\
          \x20 load north north.seg takes the lowest slot that is free and calls it north. A name has at most 24 bytes and is no number.\n\
          slots                          what is loaded, and from which files\n\
          open [NAME] SLOT WORDS         opens a session of so many words on a loaded slot\n\
          \x20 open north weekly 32 calls it north, and every command takes the name for its number. It sees all shared words.\n\
          \x20 open north weekly 32 for 12: it sees the records of farm 12 and no others, from address 32768 on.\n\
          \x20 open north weekly 32 window 16 48: it sees the 48 shared words from word 16 on.\n\
          turn SESSION STEPS             runs a session for so many steps, or until it finishes or faults\n\
          \x20 Ctrl-C ends it after the steps done so far.\n\
          step SESSION [N]               does one step, or N, and shows each instruction, with the stack before and behind it\n\
          show SESSION                   its kind, region, window and registers, how deep its stack went, its next instruction and calls, and why it faulted\n\
          \x20 How deep: the lowest stack pointer, the words that the stack never reached, and the least region that would have been enough so far.\n\
          \x20 After fault 4, a full stack, nothing of it is told: open the session with more words and run it again.\n\
          words SESSION [FROM [COUNT]]   its words, by its own addresses\n\
          save SESSION FILE              its words as text that a spreadsheet reads\n\
          shared [FROM [COUNT]]          the shared words\n\
          map                            who has which words of the memory\n\
          close SESSION                  closes a session and frees its words\n\
          keep going [always]            a script goes on after a report's fault; always: after any failure\n\
          \x20 A script is what is read from a file or a pipe. Without this it stops at the first line that fails.\n\
          help [COMMAND]                 this page, or more of one command\n\
          exit                           ends the console, as quit and the end of the input do\n\
          A line that begins with # is a remark. A name with blanks stands in quotes: \"my file.seg\".\n",
        command,
    )
}

fn chosen(page: &[u8], command: &[u8]) -> bool {
    let mut mine = false;
    let mut found = false;
    for line in page.split_inclusive(|b| *b == b'\n') {
        mine = belongs(line, command, mine);
        if mine {
            pond_say::text(line);
            found = true;
        }
    }
    found
}

// Whether a line is shown: one that begins with a blank goes with the one before it.
fn belongs(line: &[u8], command: &[u8], mine: bool) -> bool {
    match line {
        [] => false,
        [b' ', ..] => mine && !command.is_empty(),
        _ => command.is_empty() || same(word(line, 0), command),
    }
}
