//! Laws of exchange text with heads, for the layers above to cite.
ghost use Rattle.std.specs.Prelude.{◌≡◌, ◌≢◌, ◌++◌, ℕ, Bool, true, IsTrue, List, Option, Result, Some, Err, codes};
ghost use Rattle.kl_value.specs.declared.Value.{Value};
ghost use Rattle.kl_type.specs.Ground.{IsProper};
ghost use Rattle.kl_type.specs.Reading.{ReadsType};
ghost use Rattle.kl_type.specs.Written.{type_text};
ghost use Rattle.kl_type.specs.declared.Ty.{Ty};
ghost use Rattle.kl_exchange.specs.FileItems.{FileEnd};
ghost use Rattle.kl_exchange.specs.FileReading.{Left};
ghost use Rattle.kl_exchange.specs.Found.{values_of};
ghost use Rattle.kl_exchange.specs.Grammar.{IsItem};
ghost use Rattle.kl_exchange.specs.declared.ReadError.{ReadError};
ghost use Rattle.kl_exchange.specs.declared.ReadError.TheVariants as error;
ghost use Rattle.kl_heads.specs.FileReading.{HasRead, HeadedFile, limit_of};
ghost use Rattle.kl_heads.specs.Files.{Shows};
ghost use Rattle.kl_heads.specs.Found.{FileText, IsFileText, file_text};
ghost use Rattle.kl_heads.specs.Heads.{IsHead};
ghost use Rattle.kl_heads.specs.Reading.{Headed, ReadsNext};
ghost use Rattle.kl_heads.specs.Stated.{begins_no_head, stated_in};
ghost use Rattle.kl_heads.specs.Texts.{StaysHeadless};
ghost use Rattle.kl_heads.specs.declared.reader.Item.{Item};

/// No spelling of a head or an item begins another's, and each spells one type or one value, whatever follows. So a state
/// has one answer that is no want of memory: each answer comes exactly where its cause is. A type that a head states is
/// proper. The text of a type that was read, from a head or as a text of a type, is a head of it behind `type ` and before
/// `;`.
pub fn head_laws()
    ensures one_head { (m n : ℕ) (a b x y : List ℕ) (t u : Ty)
        → IsHead m a t → IsHead n b u → a ++ x ≡ b ++ y → (a ≡ b) × (t ≡ u) }
    ensures no_item { (m n : ℕ) (a b x y : List ℕ) (t : Ty) (v : Value)
        → IsHead m a t → IsItem n b v → a ++ x ≡ b ++ y → ⊥ }
    ensures one_answer { (old new other : Headed) (r s : Result Item ReadError)
        → ReadsNext old r new → ReadsNext old s other → r ≢ Err error.NoMemory → s ≢ Err error.NoMemory
        → (r ≡ s) × (new ≡ other) }
    ensures proper { (n : ℕ) (bytes : List ℕ) (t : Ty) → IsHead n bytes t → IsProper t }
    ensures again { (n : ℕ) (bytes : List ℕ) (t : Ty) → IsHead n bytes t → IsHead n (codes "type " ++ (type_text t ++ codes ";")) t }
    ensures written { (bytes : List ℕ) (t : Ty) → ReadsType bytes t → IsHead 256 (codes "type " ++ (type_text t ++ codes ";")) t }
{}

/// The head and the items of a file are a function of its bytes, and the only one that the grammar allows: each file has one
/// head or none, one list of items at their places, and one end. What was read of a file by any time is a front of these. The bytes that came of it by then
/// state the head that was read, or that there is none: that no head is begun is told by the first bytes behind white space,
/// which begin none, whatever follows.
pub fn text_laws()
    ensures is { (limit : ℕ) (bytes : List ℕ) → IsFileText limit bytes (file_text limit bytes) }
    ensures only { (limit : ℕ) (bytes : List ℕ) (f : FileText) → IsFileText limit bytes f → f ≡ file_text limit bytes }
    ensures shows { (limit : ℕ) (bytes : List ℕ) → Shows limit bytes (file_text limit bytes).head
        (values_of (file_text limit bytes).items) (file_text limit bytes).behind }
    ensures one_text { (limit : ℕ) (bytes : List ℕ) (head other : Option Ty) (vs ws : List Value) (e f : FileEnd)
        → Shows limit bytes head vs e → Shows limit bytes other ws f → (head ≡ other) × ((vs ≡ ws) × (e ≡ f)) }
    ensures front { (first : Left) (head other : Option Ty) (vs ws : List Value) (now : HeadedFile) (left : Left) (bytes : List ℕ) (end : FileEnd)
        → HasRead first head vs now left → first ≡ Some (Some bytes) → Shows (limit_of now) bytes other ws end
        → (head ≡ other) × ((us : List Value) × (ws ≡ vs ++ us)) }
    ensures stated { (vs : List Value) (now : HeadedFile) (left : Left) (bytes : List ℕ) (ended : Bool)
        → (IsTrue now.items.text.finished → IsTrue ended) → (limit : ℕ) (head : Option Ty) → limit_of now ≡ limit
        → HasRead (Some (Some bytes)) head vs now left → stated_in limit ended bytes ≡ Some head }
    ensures headless { (ended : Bool) (bytes : List ℕ) → begins_no_head ended bytes ≡ true → StaysHeadless ended bytes }
    ensures only_headless { (ended : Bool) (bytes : List ℕ) → StaysHeadless ended bytes → begins_no_head ended bytes ≡ true }
{}
