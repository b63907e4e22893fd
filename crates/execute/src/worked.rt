// Worked examples of execution, as a statement about the definitions that the functions answer by.
ghost use Rattle.std.specs.Prelude.{◌≡◌};
ghost use Rattle.execute.specs.Worked.{Worked};

// How many worked examples the contract speaks of.
pub fn worked_execution() -> u8
    ensures worked { Worked }
    ensures count { result ≡ 4 }
{
    4
}
