// The questions on standard input, asked of the proved entry points; docs/CASES.md has the format, and `second/` answers the same.
// Everything is read, asked and told in `cases_entries`. Here are only the words and bytes that it lends on.
#![tactic(auto)]

fn main(rt: HostRuntime) {
    let mut memory = [0u16; 1048580];
    let mut store = [0u8; 262144];
    cases_entries::run(&rt, &mut memory, &mut store);
}
