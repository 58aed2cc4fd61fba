//! Laws of the fields: what is written is read back, whatever follows. Each function here states laws and has an empty
//! body.
ghost use Rattle.std.specs.Prelude.{◌≡◌, ℕ, ◌<◌, ◌^◌, List, ◌++◌, length, Bool, Option, Ok, IfSome, is_some};
ghost use Rattle.std.specs.Int.{w16, w32, w64};
ghost use Rattle.std.specs.List.{flat_map, AllByRecursion};
ghost use Rattle.zb_base.specs.declared.address.Eui.{Eui};
ghost use Rattle.zb_base.specs.declared.address.Short.{Short};
ghost use Rattle.zb_base.specs.declared.key.Key.{Key};
ghost use Rattle.zb_cursor.specs.Spelling.{number, short, eui, key, optional};
ghost use Rattle.zb_cursor.specs.Reading.{number_at, short_at, eui_at, key_at, optional_at, times_at};

/// States that each field that fits its width is read back from its spelling, exactly to its last byte.
pub fn spelled_is_read<E>()
    ensures number16 { (cut : E) (n : ℕ) (rest : List ℕ) → n < 2 ^ 16
        → number_at w16 cut (number w16 n ++ rest) ≡ Ok (n, rest) }
    ensures number32 { (cut : E) (n : ℕ) (rest : List ℕ) → n < 2 ^ 32
        → number_at w32 cut (number w32 n ++ rest) ≡ Ok (n, rest) }
    ensures number64 { (cut : E) (n : ℕ) (rest : List ℕ) → n < 2 ^ 64
        → number_at w64 cut (number w64 n ++ rest) ≡ Ok (n, rest) }
    ensures short { (cut : E) (s : Short) (rest : List ℕ) → s.0 < 2 ^ 16
        → short_at cut (short s ++ rest) ≡ Ok (s, rest) }
    ensures eui { (cut : E) (e : Eui) (rest : List ℕ) → e.0 < 2 ^ 64
        → eui_at cut (eui e ++ rest) ≡ Ok (e, rest) }
    ensures key { (cut : E) (k : Key) (rest : List ℕ) → length k.0 ≡ 16
        → key_at cut (key k ++ rest) ≡ Ok (k, rest) }
    ensures optional { (cut : E) (o : Option Eui) (rest : List ℕ) → IfSome o (λ e. e.0 < 2 ^ 64)
        → optional_at (is_some o) eui_at cut (optional eui o ++ rest) ≡ Ok (o, rest) }
    ensures times { (cut : E) (xs : List Short) (rest : List ℕ) → AllByRecursion (λ s. s.0 < 2 ^ 16) xs
        → times_at short_at (length xs) cut (flat_map short xs ++ rest) ≡ Ok (xs, rest) }
{}
