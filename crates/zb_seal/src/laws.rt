//! Laws of sealing and opening: they undo each other. Each function here states laws and has an empty body.
ghost use Rattle.std.specs.Prelude.{◌≡◌, ◌-◌, ◌≤◌, ℕ, List, length, Option, Some, Ok};
ghost use Rattle.zb_base.specs.declared.address.Eui.{Eui};
ghost use Rattle.zb_base.specs.declared.key.Key.{Key};
ghost use Rattle.zb_cursor.specs.Spelling.{IsBytes};
ghost use Rattle.zb_nwk.specs.declared.header.NwkHeader.{NwkHeader};
ghost use Rattle.zb_nwk.specs.declared.auxiliary.NwkAux.{NwkAux};
ghost use Rattle.zb_aps.specs.declared.header.ApsHeader.{ApsHeader};
ghost use Rattle.zb_aps.specs.declared.auxiliary.ApsAux.{ApsAux};
ghost use Rattle.zb_seal.specs.declared.term.Term.{Term};
ghost use Rattle.zb_seal.specs.Wire.{zero_level, at_place, aux_size, wire};
ghost use Rattle.zb_seal.specs.Opening.{source_of, opened_nwk, opened_aps, IsNwkTerm, IsApsTerm};
ghost use Rattle.zb_base.specs.Limits.{longest_frame};

/// States that `wire` and the calls that open undo each other.
pub fn wire_and_open()
    // The bytes of a term open to it, under its base key, and at APS with its source if the header has none.
    ensures nwk_opens { (t : Term) (h : NwkHeader) (a : NwkAux) → IsNwkTerm t h a → length t.base.0 ≡ 16
        → length (wire t) ≤ longest_frame → opened_nwk (wire t) t.base ≡ Ok t }
    ensures aps_opens { (t : Term) (h : ApsHeader) (a : ApsAux) (given : Option Eui) → IsApsTerm t h a
        → source_of a.source given ≡ Some t.source → length t.base.0 ≡ 16 → length (wire t) ≤ longest_frame
        → opened_aps (wire t) t.base given ≡ Ok t }
    // The bytes of an opened term are those that were opened, with level bits 000.
    ensures nwk_wire { (bytes : List ℕ) (base : Key) (t : Term) → IsBytes bytes → length base.0 ≡ 16
        → opened_nwk bytes base ≡ Ok t → wire t ≡ at_place zero_level (length t.header.items - 14) bytes }
    ensures aps_wire { (bytes : List ℕ) (base : Key) (given : Option Eui) (t : Term) → IsBytes bytes
        → length base.0 ≡ 16 → opened_aps bytes base given ≡ Ok t
        → wire t ≡ at_place zero_level (length t.header.items - aux_size t.layer t.control) bytes }
{}
