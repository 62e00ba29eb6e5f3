// The kinds of levels that a certificate can have.
ghost use Rattle.std.specs.Prelude.{◌≡◌};
ghost use Rattle.orders.specs.Kinds.{kind_of};

// Which levels a certificate has, by the number that its head states.
#[derive(Clone, Copy, Debug, PartialEq, Eq)]
pub enum LevelKind {
    Numbers = 1,
    Routes = 2,
}

// A number that stands for no kind of levels.
#[derive(Clone, Copy, Debug, PartialEq, Eq)]
pub struct UnknownKind(pub u16);

impl TryFrom<u16> for LevelKind {
    type Error = UnknownKind;

    ghost try_from_gives = { λ number r. r ≡ kind_of number };

    fn try_from(number: u16) -> Result<LevelKind, UnknownKind> {
        match number {
            1 => Ok(LevelKind::Numbers),
            2 => Ok(LevelKind::Routes),
            _ => Err(UnknownKind(number)),
        }
    }
}
