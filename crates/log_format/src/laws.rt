//! What holds of the texts of records.

ghost use Rattle.std.specs.Prelude.{◌≡◌, ◌++◌, ◌+◌, ◌≤◌, List, ℕ, [], Ok, length};
ghost use Rattle.xdr_core.specs.Grammar.{Spells, reads};
ghost use Rattle.xdr_cut.specs.Cut.{IsShort, Begins};
ghost use Rattle.log_format.specs.declared.event.Event.{Event};
ghost use Rattle.log_format.specs.Records.{event_form};
ghost use Rattle.log_format.specs.Spelling.{event_text};

/// No record begins another.
pub fn no_prefix()
    ensures { (f servers : ℕ) (a b : Event) (text more : List ℕ)
        → Spells (event_form f servers) a text → Spells (event_form f servers) b (text ++ more)
        → (more ≡ []) × (a ≡ b) }
{}

/// A record has one text, of at most 65,556 bytes, and it is read again, whatever stands behind it.
pub fn again()
    ensures one { (f servers : ℕ) (e : Event) (text : List ℕ)
        → Spells (event_form f servers) e text → event_text e ≡ text }
    ensures len { (f servers : ℕ) (e : Event) (text : List ℕ)
        → Spells (event_form f servers) e text → length text ≤ 65556 }
    ensures read { (f servers : ℕ) (e : Event) (text more : List ℕ)
        → Spells (event_form f servers) e text
        → reads (event_form f servers) (record { at = 0; rest = text ++ more })
        ≡ Ok (e, record { at = 0 + length text; rest = more }) }
{}

/// A front that is short and is filled up to its need has no record that ends before the need.
pub fn taken_whole()
    ensures { (f servers : ℕ) (front new : List ℕ) (need : ℕ) (e : Event) (n : ℕ)
        → IsShort (event_form f servers) front need → length (front ++ new) ≡ need
        → Begins (event_form f servers) (front ++ new) e n → n ≡ need }
{}
