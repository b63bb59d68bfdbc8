// What README.md and docs/OPERATING.md show, held by the gate: `stdin` has their commands, `stdout` what they show. `data/examples` has the files of examples/.
// First a command on a bench that is given as words of the shell (`args`) is refused. Then a script goes on to its line `exit`; and the next one, which begins
// behind that line, stops at its first failure: two farms, and one of them has a mistyped file. What is not in `stdout` was not done.
// Everything is said and done in `pond_console`, as in the program `pond`.
#![tactic(auto)]

fn main(rt: HostRuntime) {
    pond_console::arguments(&rt);
    pond_console::script(&rt);
    pond_console::script(&rt);
}
