// Worked words, as a statement about the definitions that `decode` answers by.
ghost use Rattle.std.specs.Prelude.{◌≡◌};
ghost use Rattle.instruction.specs.Worked.{Worked};

// How many worked words the contract speaks of.
pub fn worked_words() -> u8
    ensures worked { Worked }
    ensures count { result ≡ 2 }
{
    2
}
