// A sheet on standard input, its clause text in the DIMACS CNF format on standard output, for any solver.
#![tactic(auto)]

fn main(rt: HostRuntime) {
    let mut input = rt.stdin();
    let mut list = [0i32; 262144];
    let mut text = [0u8; 1835022];
    console_cnf::print_clauses(&mut input, &mut list, &mut text, rt.stdout(), rt.stderr());
}
