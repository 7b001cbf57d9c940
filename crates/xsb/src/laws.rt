//! Laws of collections that callers may rely on. Each is the contract of a function that does nothing: call it in a
//! proof to use the law.
ghost use Rattle.std.specs.Prelude.{◌≡◌, ℕ, List};
ghost use Rattle.xsb.specs.Collection.{Found, IsCollection};

/// The bytes of a collection have exactly one list of boards.
pub fn one_collection()
    ensures some { (bytes : List ℕ) → (founds : List Found) × IsCollection bytes founds }
    ensures one { (bytes : List ℕ) (founds others : List Found) → IsCollection bytes founds →
        IsCollection bytes others → founds ≡ others }
{}
