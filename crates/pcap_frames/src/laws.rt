//! The laws of captures: how records are found, and that what is written is read.

ghost use Rattle.std.specs.Prelude.{◌≡◌, ℕ, ◌+◌, ◌≤◌, ◌^◌, List, [], ◌∷◌, ◌++◌, false, true, Some, None, Ok, Err};
ghost use Rattle.std.specs.Prelude.{length, drop};
ghost use Rattle.tas_num.specs.Captures.{Fault, Form, Next, first_record, records_from, records_within, joined};
ghost use Rattle.tas_num.specs.Captures.{form_of, capture_of, capture_with, file_header, record_bytes};

/// How the records of a capture are found one by one: those of the bytes left are the first record, and those of the
/// bytes after it.
pub fn records_are_found_in_order()
    ensures ends { (form : Form) (number : ℕ) (b : List ℕ) → first_record form number b ≡ Ok None
        → records_from form number b ≡ Ok [] }
    ensures refused { (form : Form) (number : ℕ) (b : List ℕ) (fault : Fault) → first_record form number b ≡ Err fault
        → records_from form number b ≡ Err fault }
    ensures goes_on { (form : Form) (number : ℕ) (b : List ℕ) (next : Next)
        → first_record form number b ≡ Ok (Some next)
        → records_from form number b ≡ joined (next.item ∷ []) (records_from form (number + 1) next.rest) }
    // The number of bytes left is enough as a bound on the number of records.
    ensures enough { (form : Form) (most number : ℕ) (b : List ℕ) → length b ≤ most
        → records_within most form number b ≡ records_from form number b }
{}

/// A whole file is its file header, and the records of the bytes after it.
#[tactic(auto, using(crate::proofs::Following::capture_of_refused, crate::proofs::Following::capture_of_form))]
pub fn captures_are_headers_and_records()
    ensures refused { (b : List ℕ) (fault : Fault) → form_of b ≡ Err fault → capture_of b ≡ Err fault }
    ensures form { (b : List ℕ) (form : Form) → form_of b ≡ Ok form
        → capture_of b ≡ capture_with form (records_from form 1 (drop 24 b)) }
{}

/// What is written is read as it was: the file header, and a record of each packet of at most 65,549 bytes.
pub fn what_is_written_is_read()
    ensures header { (b : List ℕ)
        → form_of (file_header ++ b) ≡ Ok (record { big = false; nanos = false; link = 101 }) }
    ensures records_follow { (b : List ℕ) → drop 24 (file_header ++ b) ≡ b }
    ensures record_is_read { (form : Form) (number seconds : ℕ) (packet b : List ℕ) → form.big ≡ false
        → length packet ≤ 65549 → first_record form number (record_bytes seconds packet ++ b)
        ≡ Ok (Some (record { item = record { number = number; whole = true; frame = packet }; rest = b })) }
{}
