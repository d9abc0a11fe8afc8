// `rehearse` on a faulty `lib.txt`: one line, and no call is run.
#![tactic(auto)]

fn main(rt: HostRuntime) {
    rehearse_run::run(&rt);
}
