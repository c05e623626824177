// The program of `./find --on`: a sheet on standard input, an answer on standard output, the steps done on standard error.
#![tactic(auto)]

fn main(rt: HostRuntime) {
    let mut input = rt.stdin();
    console_finder_on::find_on(&mut input, rt.stdout(), rt.stderr());
}
