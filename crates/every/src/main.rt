// The program of `./find --every`: a sheet on standard input, its cases on standard output.
#![tactic(auto)]

fn main(rt: HostRuntime) {
    let mut input = rt.stdin();
    console_every::every(&mut input, rt.stdout(), rt.stderr());
}
