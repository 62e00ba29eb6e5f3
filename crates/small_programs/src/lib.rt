// Two small programs, and rows of calls that are worked out over them.
#![tactic(auto)]

ghost use Rattle.std.specs.Prelude.{◌≡◌, length};
ghost use Rattle.std.specs.List.{AllByRecursion};
ghost use Rattle.small_programs.specs.Rows.{Stands, worked_rows};

// How many rows are worked out. Each of them stands.
pub fn rows() -> usize
    ensures value { result ≡ length worked_rows }
    ensures stand { AllByRecursion Stands worked_rows }
{
    9
}
