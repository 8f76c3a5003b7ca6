//! Laws of lines, tokens and numbers, for a reader who doubts the definitions. Each function states
//! some by its contract, and does nothing.
ghost use Rattle.std.specs.Prelude.{◌≡◌, ◌<◌, ◌≤◌, ◌^◌, ℕ, true, false, Some, SomeIff, List, [], ◌∷◌, ◌++◌, length, codes};
ghost use Rattle.std.specs.Fmt.{decimal};
ghost use Rattle.std.specs.List.{list_all};
ghost use Rattle.std.specs.Str.Parse.{IsNumeral, digits_value};
ghost use Rattle.text_tokens.specs.Text.{line_feed, hash, lines_of, tokens_of, is_line_byte, is_blank, is_mark, is_run_byte, goes_on};
ghost use Rattle.text_tokens.specs.Numbers.{number_of, small_number_of, digits_of, most_digits, most_hex_digits, negative, minus};

/// A text is its lines, each with its line feed, and perhaps a last line without one.
#[tactic(auto, using(crate::proofs::LinesAndTokensAreRead::line_laws))]
pub fn lines_are_read()
    ensures none { lines_of [] ≡ [] }
    ensures first { (line text : List ℕ) → list_all is_line_byte line ≡ true →
        lines_of (line ++ line_feed ∷ text) ≡ line ∷ lines_of text }
    ensures last { (line : List ℕ) → 0 < length line → list_all is_line_byte line ≡ true →
        lines_of line ≡ line ∷ [] }
{}

/// A line is blanks, marks and runs, and perhaps a comment.
#[tactic(auto, using(crate::proofs::LinesAndTokensAreRead::token_laws))]
pub fn tokens_are_read()
    ensures none { tokens_of [] ≡ [] }
    ensures blank { (b : ℕ) (line : List ℕ) → is_blank b ≡ true → tokens_of (b ∷ line) ≡ tokens_of line }
    ensures mark { (b : ℕ) (line : List ℕ) → is_mark b ≡ true →
        tokens_of (b ∷ line) ≡ (b ∷ []) ∷ tokens_of line }
    ensures run { (token line : List ℕ) → 0 < length token → list_all is_run_byte token ≡ true →
        goes_on line ≡ false → tokens_of (token ++ line) ≡ token ∷ tokens_of line }
    ensures comment { (text : List ℕ) → tokens_of (hash ∷ text) ≡ [] }
{}

/// Each kind of number has the value of its digits, and what std prints is read as what it was.
#[tactic(auto, using(crate::proofs::NumbersAreRead::number_laws))]
pub fn numbers_are_read()
    // A token is a number in a radix exactly when it is one digit or more and nothing else.
    ensures digits { (radix : ℕ) (token : List ℕ) →
        SomeIff (digits_of radix token) (IsNumeral radix token) (digits_value radix token) }
    ensures decimal { (token : List ℕ) → IsNumeral 10 token → length token ≤ most_digits →
        digits_value 10 token < 2 ^ 64 → number_of token ≡ Some (digits_value 10 token) }
    ensures negative { (token : List ℕ) → IsNumeral 10 token → digits_value 10 token ≤ 2 ^ 63 →
        number_of (minus ∷ token) ≡ Some (negative (digits_value 10 token)) }
    ensures hexadecimal { (token : List ℕ) → IsNumeral 16 token → length token ≤ most_hex_digits →
        number_of (codes "0x" ++ token) ≡ Some (digits_value 16 token) }
    ensures printed { (n : ℕ) → n < 2 ^ 64 → number_of (decimal n) ≡ Some n }
    ensures printed_small { (n : ℕ) → n < 2 ^ 32 → small_number_of (decimal n) ≡ Some n }
{}
