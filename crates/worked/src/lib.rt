// The worked examples of the machine, of amounts and of imports, as one table that the check computes.
#![tactic(auto)]

ghost use Rattle.std.specs.Prelude.{◌≡◌, ℕ};
ghost use Rattle.worked.specs.Planned.{FollowsItself};
ghost use Rattle.worked.specs.Worked.{Worked};

// How many examples there are. Each of them holds of the definitions that the calls of a book are promised by.
pub fn worked_examples() -> u32
    ensures examples { Worked }
    ensures followed { (FollowsItself (Unit {0})) × (FollowsItself ℕ) }
    ensures count { result ≡ 9 }
{
    9
}
