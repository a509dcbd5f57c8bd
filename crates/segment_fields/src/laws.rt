//! The laws of packets: what is written is read.

ghost use Rattle.std.specs.Prelude.{◌≡◌, ℕ, Bool, List, Option, option_map, None, length};
ghost use Rattle.segment_fields.specs.Fields.{Fields, fields_of};
ghost use Rattle.segment_fields.specs.Options.{read_shift};
ghost use Rattle.segment_fields.specs.Text.{IsText, fields_in, refusal};
ghost use Rattle.segment_fields.specs.Canon.{HasOptionsInSynAlone, borne_mss, borne_scale, canon, canon_len};
ghost use Rattle.segment_fields.specs.declared.segment.Segment.{Segment};

/// What is written is read as it was: the one packet of a segment's fields breaks no rule, and spells these fields.
pub fn what_is_written_is_read()
    ensures accepted { (check : Bool) (f : Fields) → refusal check (canon f) ≡ None }
    // An MSS or a window scale without SYN isn't written, and a shift above 14 is read as 14.
    ensures fields { (f : Fields) → fields_in (canon f)
        ≡ record f { mss = borne_mss f; scale = option_map read_shift (borne_scale f) } }
    ensures same { (f : Fields) → HasOptionsInSynAlone f → fields_in (canon f) ≡ f }
    ensures segment { (f : Fields) (s : Segment) → HasOptionsInSynAlone f → IsText (canon f) s → fields_of s ≡ f }
    ensures len { (f : Fields) → length (canon f) ≡ canon_len f }
{}

/// The equations of a text are those of the fields that the bytes spell.
pub fn texts_spell_fields()
    ensures { (b : List ℕ) (s : Segment) → IsText b s → fields_of s ≡ fields_in b }
{}
