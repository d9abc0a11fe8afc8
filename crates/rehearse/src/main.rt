// Plays the call lines on standard input against the class text `lib.txt`.
#![tactic(auto)]

fn main(rt: HostRuntime) {
    rehearse_run::run(&rt);
}
