// The digits that stand in the files that programs are run on.
#![tactic(auto)]

ghost use Rattle.std.specs.Prelude.{◌≡◌, ◌-◌, ◌%◌};

// The digit that a byte of text stands for.
pub fn digit(text: u8) -> usize
    ensures { result ≡ (text - 48) % 10 }
{
    (text as usize).saturating_sub(48) % 10
}
