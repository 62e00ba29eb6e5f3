// What a refusal is: the reason, the layer that refused, and the place.
#![tactic(auto)]

ghost use Rattle.std.specs.Prelude.{◌≡◌, Some};
ghost use Rattle.refusal.specs.Numbers.{number_of, letter_of};
ghost use Rattle.refusal.specs.Refused.{refused, refusal_text};
ghost use Rattle.refusal.specs.Tables.{length_checked, atom_checked};

use std::fmt;

// Why input is refused. docs/REFUSALS.md says when each is given.
#[derive(Clone, Copy)]
pub enum Reason {
    // the file ends inside or before a record that is needed
    Cut = 1,
    // a record of this kind cannot stand here
    Kind,
    // a record's length, or its positive count, is unfit
    Length,
    // a limit is passed
    Limit,
    // an atom in a file lies outside 1 to n
    Atom,
    // a part, or a certificate's atoms, do not strictly ascend
    Order,
    // an atom stands in both parts of a rule
    BothParts,
    // the number of rules differs from the stated one
    RuleCount,
    // bytes follow the end record
    Trailing,
    // the level kind is not the one wanted
    LevelKind,
    // the certificate is for another number of atoms
    AtomCount,
    // a table does not have one entry for each atom
    TableLength,
    // a mark byte has no meaning
    MarkByte,
    // the atom that a call names lies outside 1 to n
    CallAtom,
    // an unmarked atom cannot be doubted
    Unmarked,
    // a ranking needs more rounds than the order has rungs
    Rounds,
    // a certificate has more records than there are atoms
    RecordCount,
    // the output is too short
    Output,
}

// Which layer refuses.
#[derive(Clone, Copy)]
pub enum Layer {
    Program,
    Certificate,
    Source,
    Survey,
    Writer,
}

#[derive(Clone, Copy)]
pub struct Refusal {
    pub reason: Reason,
    pub layer: Layer,
    pub place: usize,
}

impl Reason {
    // The number by which a reason is printed.
    pub fn number(self) -> u8
        ensures value { result ≡ number_of self }
    {
        self as u8
    }
}

impl Layer {
    // The letter by which a layer is printed.
    pub fn letter(self) -> &'static str
        ensures value { result.now ≡ letter_of self }
    {
        match self {
            Layer::Program => "P",
            Layer::Certificate => "C",
            Layer::Source => "R",
            Layer::Survey => "S",
            Layer::Writer => "W",
        }
    }

    // This layer's refusal for a reason, at a place.
    pub fn refuse(self, reason: Reason, place: usize) -> Refusal
        ensures value { result ≡ refused self reason place }
    {
        Refusal {
            reason,
            layer: self,
            place,
        }
    }
}

// A refusal is printed as its layer's letter, its reason's number and its place.
impl fmt::Display for Refusal {
    ghost output = { λ r. Some (refusal_text r) };

    fn fmt<W: fmt::Write>(&self, f: &mut fmt::Formatter<W>) -> fmt::Result {
        let letter = self.layer.letter();
        let number = self.reason.number();
        let place = self.place;
        write!(f, "refused {letter} {number} {place}")
    }
}

// Refuses a table that does not have one entry for each of n atoms.
pub fn check_length(n: u16, entries: usize) -> Result<(), Refusal>
    ensures value { result ≡ length_checked n entries }
{
    if entries == usize::from(n) {
        return Ok(());
    }
    Err(Layer::Survey.refuse(Reason::TableLength, entries))
}

// Refuses an atom that a call names and that is not one of 1 to n.
pub fn check_atom(n: u16, atom: u16) -> Result<(), Refusal>
    ensures value { result ≡ atom_checked n atom }
{
    if 1 <= atom && atom <= n {
        return Ok(());
    }
    Err(Layer::Survey.refuse(Reason::CallAtom, usize::from(atom)))
}
