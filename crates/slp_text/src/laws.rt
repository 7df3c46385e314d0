//! What holds of every text. The functions do nothing: their contracts are the laws.
ghost use Rattle.std.specs.Prelude.{◌≡◌, ◌↔◌, ℕ, List, Contains, IsUtf8, Ok};
ghost use Rattle.slp_text.specs.Escapes.{unescaped_text, unescaped_text_at, escaped_text};
ghost use Rattle.slp_text.specs.Keys.{key_of};
ghost use Rattle.slp_text.specs.Sets.{set_of};
ghost use Rattle.slp_text.specs.Words.{IsAscending};
ghost use Rattle.slp_text.specs.declared.escapes.Place.{Place};

/// What is written at a place is read there as the same characters.
pub fn what_is_escaped_is_read_again()
    ensures there { (place : Place) (cs : List ℕ) → unescaped_text_at place (escaped_text place cs) ≡ Ok cs }
    ensures anywhere { (place : Place) (cs : List ℕ) → unescaped_text (escaped_text place cs) ≡ Ok cs }
{}

/// A set has just the keys that it is made of, in key order.
pub fn a_set_has_its_keys()
    ensures ascending { (ks : List (List ℕ)) → IsAscending (set_of ks) }
    ensures same { (ks : List (List ℕ)) (k : List ℕ) → Contains (set_of ks) k ↔ Contains ks k }
{}

/// A key is its own key.
pub fn keys_are_their_own_keys()
    ensures { (text : List ℕ) → IsUtf8 text → key_of (key_of text) ≡ key_of text }
{}
