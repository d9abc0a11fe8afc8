// `rehearse` where there is no `lib.txt`: it counts as the empty text.
#![tactic(auto)]

fn main(rt: HostRuntime) {
    rehearse_run::run(&rt);
}
