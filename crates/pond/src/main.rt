// The console of the runner, for the maintainer: `pond COMMAND WORDS` follows one command; `pond` alone follows the commands on
// standard input, one a line, until it ends. Everything is said and done in `pond_console`.
#![tactic(auto)]

fn main(rt: HostRuntime) {
    if pond_console::arg_count(&rt) > 1 {
        pond_console::arguments(&rt);
    } else {
        pond_console::script(&rt);
    }
}
