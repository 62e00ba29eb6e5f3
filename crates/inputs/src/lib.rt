// The input layer: a rule source over any source, with input atoms of its own as facts after its rules.
#![tactic(auto)]

ghost use Rattle.std.specs.Prelude.{◌≡◌, []};
ghost use Rattle.inputs.specs.Layer.{with_inputs, room_checked, put_answer, inputs_after, program_after};

use crate::walks::is_within;
use arrayvec::ArrayVec;
use refusal::{Layer, Reason, Refusal};
use rules::{MAX_RULES, RuleSource};

pub mod source;
mod walks;

// A layer has at most this many inputs.
const MAX_INPUTS: usize = 64;

// The source below, and the inputs over it in the order in which they were put.
#[derive(Drop)]
pub struct Inputs<S> {
    below: S,
    inputs: ArrayVec<u16, MAX_INPUTS>,
}

impl<S: RuleSource> Inputs<S> {
    // A layer without inputs: it stands for the same program as the source below.
    pub fn over(below: S) -> Inputs<S>
        ensures below { result.below ≡ below }
        ensures inputs { result.inputs.items ≡ [] }
        ensures same { with_inputs (S.meaning result.below) result.inputs.items ≡ S.meaning below }
    {
        Inputs {
            below,
            inputs: ArrayVec::new(),
        }
    }

    // Puts an atom as an input; one that is there already is accepted, and the list stays.
    pub fn put(&mut self, atom: u16) -> Result<(), Refusal>
        ensures value { result ≡ put_answer (S.meaning self.old.below) self.old.inputs.items atom }
        ensures below { self.new.below ≡ self.old.below }
        ensures inputs { self.new.inputs.items ≡ inputs_after (S.meaning self.old.below) self.old.inputs.items atom }
        ensures listed { with_inputs (S.meaning self.new.below) self.new.inputs.items ≡ program_after (S.meaning self.old.below) self.old.inputs.items atom }
    {
        if !is_within(self.below.atoms(), atom) {
            return Err(Layer::Source.refuse(Reason::CallAtom, usize::from(atom)));
        }
        if self.inputs.contains(&atom) {
            return Ok(());
        }
        self.check_room()?;
        self.inputs.push(atom);
        Ok(())
    }
}

impl<S: RuleSource> Inputs<S> {
    // Refuses one more input: the limit of inputs, then that of rules.
    fn check_room(&self) -> Result<(), Refusal>
        ensures value { result ≡ room_checked (S.meaning self.now.below) self.now.inputs.items }
    {
        if self.inputs.is_full() {
            return Err(Layer::Source.refuse(Reason::Limit, MAX_INPUTS));
        }
        if self.rules() >= MAX_RULES {
            return Err(Layer::Source.refuse(Reason::Limit, usize::from(MAX_RULES)));
        }
        Ok(())
    }
}
