// Filling the level table of a survey by hand: the call refuses or fills one entry.
ghost use Rattle.std.specs.Prelude.{◌≡◌, length};
ghost use Rattle.survey.specs.Levelling.{level_checked, after_level};

use levels::order::Level;
use levels::table::LevelTable;
use refusal::{Refusal, check_atom, check_length};
use rules::RuleSource;

// Gives an atom a level, whether it is marked or not.
pub fn level<S: RuleSource, L: Level>(
    source: &S,
    levels: &mut LevelTable<L>,
    atom: u16,
    level: L,
) -> Result<(), Refusal>
    ensures value { result ≡ level_checked (S.meaning source.now).atoms (length levels.old.entries.now) atom }
    ensures after { levels.new.entries.now ≡ after_level (S.meaning source.now).atoms levels.old.entries.now atom level }
    ensures named { levels.new.entries.ghost_name ≡ levels.old.entries.ghost_name }
{
    let n = source.atoms();
    check_length(n, levels.len())?;
    check_atom(n, atom)?;
    levels.put(atom, level);
    Ok(())
}
