//! Laws over the definitions of packed numbers. The functions do nothing: what they ensure is proved
//! of the definitions.

ghost use Rattle.std.specs.Prelude.{◌≡◌, ℕ, ◌^◌, ◌<◌, ◌≤◌, ◌-◌, List, [], ◌∷◌, ◌++◌, length, replicate, All, ℤ, pos, negsuc};
ghost use Rattle.nibble_pack.specs.Packing.{Kind, unsigned, signed, IsCode, byte_count, Packed};

/// Unsigned numbers: 0, the greatest of one byte, the least of two, and the greatest.
pub fn unsigned_numbers()
    ensures zero { Packed unsigned (pos 0) 0 [] }
    ensures one_byte { Packed unsigned (pos 255) 1 (255 ∷ []) }
    ensures two_bytes { Packed unsigned (pos 256) 2 (0 ∷ 1 ∷ []) }
    ensures greatest { Packed unsigned (pos (2 ^ 64 - 1)) 8 (replicate 8 255) }
{}

/// Signed numbers: -1, the last ones with a code of their count, and the first ones without.
pub fn signed_numbers()
    ensures minus_one { Packed signed (negsuc 0) 9 [] }
    ensures last_below_zero { Packed signed (negsuc (2 ^ 48 - 1)) 15 (replicate 6 255) }
    ensures first_wide_below_zero { Packed signed (negsuc (2 ^ 48)) 8 (replicate 6 255 ++ 254 ∷ 255 ∷ []) }
    ensures last_small { Packed signed (pos (2 ^ 56 - 1)) 7 (replicate 7 255) }
    ensures first_wide { Packed signed (pos (2 ^ 56)) 8 (replicate 7 0 ++ 1 ∷ []) }
{}

/// A number has one code with its bytes.
pub fn number_has_one_form()
    ensures { (kind : Kind) (z : ℤ) (a b : ℕ) (xs ys : List ℕ)
        → Packed kind z a xs → Packed kind z b ys → (a ≡ b) × (xs ≡ ys) }
{}

/// A code with its bytes is of one number.
pub fn form_has_one_number()
    ensures { (kind : Kind) (a b : ℤ) (code : ℕ) (bytes : List ℕ)
        → Packed kind a code bytes → Packed kind b code bytes → a ≡ b }
{}

/// So is a code with bytes that follow on those of the number.
pub fn front_has_one_number()
    ensures { (kind : Kind) (a b : ℤ) (code : ℕ) (xs ys r s : List ℕ)
        → Packed kind a code xs → Packed kind b code ys → xs ++ r ≡ ys ++ s → (xs ≡ ys) × (a ≡ b) }
{}

/// The code has four bits, and says how many bytes there are, of which there are 8 at most.
pub fn code_tells_the_length()
    ensures code { (kind : Kind) (z : ℤ) (code : ℕ) (bytes : List ℕ)
        → Packed kind z code bytes → IsCode kind code }
    ensures length { (kind : Kind) (z : ℤ) (code : ℕ) (bytes : List ℕ)
        → Packed kind z code bytes → length bytes ≡ byte_count kind code }
    ensures bytes { (kind : Kind) (z : ℤ) (code : ℕ) (bytes : List ℕ)
        → Packed kind z code bytes → All (λ b. b < 256) bytes }
    ensures four_bits { (kind : Kind) (code : ℕ) → IsCode kind code → code < 16 }
    ensures most { (kind : Kind) (code : ℕ) → IsCode kind code → byte_count kind code ≤ 8 }
{}
