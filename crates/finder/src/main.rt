// The finder program of document 01: a sheet on standard input, an answer on standard output.
#![tactic(auto)]

fn main(rt: HostRuntime) {
    let mut input = rt.stdin();
    console_finder::find(&mut input, rt.stdout(), rt.stderr());
}
