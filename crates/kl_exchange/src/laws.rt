//! Laws of exchange text, for the layers above to cite.
ghost use Rattle.std.specs.Prelude.{◌≡◌, ◌≢◌, ◌≤◌, ◌++◌, [], ℕ, List, Result, Some, false, codes};
ghost use Rattle.kl_value.specs.IsCanonical.{IsCanonical};
ghost use Rattle.kl_value.specs.Shape.{depth_of};
ghost use Rattle.kl_value.specs.Written.{text_of};
ghost use Rattle.kl_value.specs.declared.Value.{Value};
ghost use Rattle.kl_exchange.specs.FileItems.{FileEnd, Shows, reading};
ghost use Rattle.kl_exchange.specs.FileReading.{FileReading, HasRead, Left};
ghost use Rattle.kl_exchange.specs.Found.{IsFound, file_items, values_of};
ghost use Rattle.kl_exchange.specs.Grammar.{IsItem};
ghost use Rattle.kl_exchange.specs.Reading.{ReadsNext};
ghost use Rattle.kl_exchange.specs.State.{State};
ghost use Rattle.kl_exchange.specs.declared.error.ReadError.{ReadError};
ghost use Rattle.kl_exchange.specs.declared.error.ReadError.TheVariants as error;
ghost use Rattle.kl_exchange.specs.declared.reader.Item.{Item};

/// No item's spelling begins another's, and each spells one value, whatever follows. So a state has one answer that
/// is no want of memory: each answer comes exactly where its cause is. A value that was read is canonical and no deeper
/// than the brackets that it was read in, and its canonical text with a `;` is an item of it again.
pub fn reading_laws()
    ensures one_item { (m n : ℕ) (a b x y : List ℕ) (v w : Value)
        → IsItem m a v → IsItem n b w → a ++ x ≡ b ++ y → (a ≡ b) × (v ≡ w) }
    ensures one_answer { (old new other : State) (r s : Result Item ReadError)
        → ReadsNext old r new → ReadsNext old s other → r ≢ Err error.NoMemory → s ≢ Err error.NoMemory
        → (r ≡ s) × (new ≡ other) }
    ensures canonical { (n : ℕ) (bytes : List ℕ) (v : Value) → IsItem n bytes v → IsCanonical v }
    ensures nests { (n : ℕ) (bytes : List ℕ) (v : Value) → IsItem n bytes v → depth_of v ≤ n }
    ensures again { (n : ℕ) (bytes : List ℕ) (v : Value) → IsItem n bytes v → IsItem n (text_of v ++ codes ";") v }
{}

/// What a loop over a reader of an open file comes to. Before the first item nothing has been read; each call says what
/// has been read after it, and in the end that the file has exactly these items (`HasRead`, `EndsSo`). A file's bytes
/// have one list of items and one end, and what was read by any time is a front of that list.
pub fn file_laws()
    ensures begins { (now : FileReading) (left : Left) → now.text ≡ reading 0 [] false → now.past ≡ false → HasRead left [] now left }
    ensures one_list { (limit : ℕ) (bytes : List ℕ) (vs ws : List Value) (e f : FileEnd)
        → Shows limit bytes vs e → Shows limit bytes ws f → (vs ≡ ws) × (e ≡ f) }
    ensures front { (first : Left) (vs ws : List Value) (now : FileReading) (left : Left) (bytes : List ℕ) (end : FileEnd)
        → HasRead first vs now left → first ≡ Some (Some bytes) → Shows now.limit bytes ws end → (us : List Value) × (ws ≡ vs ++ us) }
{}

/// The items of a file are a function of its bytes: each file has one list of items at their places, and one end.
pub fn found_laws()
    ensures is { (limit : ℕ) (bytes : List ℕ) → IsFound limit bytes (file_items limit bytes) }
    ensures shows { (limit : ℕ) (bytes : List ℕ) → Shows limit bytes (values_of (file_items limit bytes).items)
        (file_items limit bytes).behind }
{}
