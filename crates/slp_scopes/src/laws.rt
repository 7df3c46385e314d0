//! What holds of every list of scopes. The functions do nothing: their contracts are the laws.
ghost use Rattle.std.specs.Prelude.{◌≡◌, ℕ, List, IsUtf8, Ok};
ghost use Rattle.slp_text.specs.Sets.{common_keys};
ghost use Rattle.slp_scopes.specs.Scopes.{scopes_of, printed_scopes, AreScopes};

use crate::scopes::ScopeList;

/// What is read as scopes are some, and so is what stands in two lists of them.
pub fn what_is_read_are_scopes()
    ensures read { (text : List ℕ) (ks : List (List ℕ)) → IsUtf8 text → scopes_of text ≡ Ok ks → AreScopes ks }
    ensures common { (ks others : List (List ℕ)) → AreScopes ks → AreScopes (common_keys ks others) }
{}

/// Scopes that are printed are read again as the same scopes.
pub fn printed_scopes_are_read_again()
    ensures { (ks : List (List ℕ)) → AreScopes ks → scopes_of (printed_scopes ks) ≡ Ok ks }
{}

/// The same of each list that there is.
pub fn each_list_is_read_again(scopes: &ScopeList)
    ensures { scopes_of (printed_scopes scopes.now) ≡ Ok scopes.now }
{
    // What `len` ensures says that they are scopes.
    let _ = scopes.len();
}
