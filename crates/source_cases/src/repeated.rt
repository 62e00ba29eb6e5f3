// A rule source of the program's own, which reaches limits that no file reaches.
pub mod source;

// 1 as a fact, as many times, over 100 atoms.
#[derive(Clone, Copy)]
pub struct Repeated {
    pub rules: u16,
}
