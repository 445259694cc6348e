//! Laws of the definitions.

ghost use Rattle.std.specs.Prelude.{◌≡◌, ℕ, ◌≤◌, ◌%◌, ◌^◌, List};
ghost use Rattle.vcd_reader.specs.Numbers.{bits_value};
ghost use Rattle.vcd_reader.specs.Values.{digits_value};
ghost use Rattle.vcd_reader.specs.Grammar.{IsGrammar};

/// The number that is stored for digits gives their value at each size up to 128.
pub fn digits_law()
    ensures { (size : ℕ) (digits : List ℕ) → size ≤ 128
        → digits_value size digits ≡ bits_value digits % 2 ^ size }
{}

/// What is read is spelled as the grammar says, and what is spelled so is read.
pub fn grammar_law()
    ensures { IsGrammar }
{}
