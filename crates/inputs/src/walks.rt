// Walks over a layer's inputs.
ghost use Rattle.std.specs.Prelude.{◌≡◌, ◌≤◌, length, filter};
ghost use Rattle.std.specs.List.{slice_get};
ghost use Rattle.rules.specs.Program.{within};

// Is the number an atom, where atoms are 1 to n?
pub(crate) fn is_within(n: u16, atom: u16) -> bool
    ensures value { result ≡ within n atom }
{
    (1..=n).contains(&atom)
}

// How many of the inputs are atoms.
pub(crate) fn count_atoms(n: u16, inputs: &[u16]) -> u16
    requires few { length inputs.now ≤ 64 }
    ensures value { result ≡ length (filter (within n) inputs.now) }
    ensures few { result ≤ 64 }
{
    inputs.iter().filter(|input| is_within(n, **input)).count() as u16
}

// The input at a position among those that are atoms.
pub(crate) fn atom_at(n: u16, inputs: &[u16], position: u16) -> Option<u16>
    ensures value { result ≡ slice_get (filter (within n) inputs.now) position }
{
    inputs
        .iter()
        .copied()
        .filter(|input| is_within(n, *input))
        .nth(usize::from(position))
}
