//! Laws of the protocol's grammar (contracts of empty functions): a line says one command, and a number has one text.
//!
//! Change them with `specs/Grammar` and `specs/Number`. The proofs are in `proofs/Commands` and `proofs/Numerals`;
//! mw_config and mw_client cite the latter.
ghost use Rattle.std.specs.Prelude.{◌≡◌, ◌↔◌, ℕ, ◌<◌, ◌^◌, IsTrue, List, decimal};
ghost use Rattle.mw_line.specs.Grammar.{Command, Spells};
ghost use Rattle.mw_line.specs.Number.{numeral, is_number_text};

/// Each line says at most one command. Because a command has one text, each command has one line.
pub fn one_spelling()
    ensures { (c d : Command) (line : List ℕ) → Spells c line → Spells d line → c ≡ d }
{}

/// The texts of numbers are those of the grammar: a 0 alone, or a digit from 1 to 9 and then any digits.
pub fn number_texts()
    ensures { (text : List ℕ) → IsTrue (is_number_text text) ↔ ((n : ℕ) × (text ≡ numeral n)) }
{}

/// A number of 64 bits has the text that it is printed as.
pub fn numbers_as_printed()
    ensures { (n : ℕ) → n < 2 ^ 64 → numeral n ≡ decimal n }
{}
