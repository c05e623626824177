// The atoms that the variables stand for: one for each.
ghost use Rattle.std.specs.Prelude.{◌≡◌, ◌<◌};
ghost use Rattle.relational.specs.Meaning as meaning;
ghost use Rattle.nodes.specs.Environments.{environment};

// "the innermost binder of a variable counts": variable x stands for the atom, the others are as before.
pub fn bind(env: [usize; 4], x: usize, atom: usize) -> [usize; 4]
    requires { x < 4 }
    ensures { environment result ≡ meaning.bind (environment env) x atom }
{
    let mut inner = env;
    inner[x] = atom;
    inner
}

// The atom that variable x stands for.
pub fn atom_at(env: [usize; 4], x: usize) -> usize
    ensures { result ≡ environment env x }
{
    if x < 4 { env[x] } else { 0 }
}
