//! What holds of the definitions. Each function is a law, which its contract states, and does nothing.

ghost use Rattle.std.specs.Prelude.{ℕ, ◌≡◌, ◌+◌, ◌≤◌, ◌↔◌, Bool, List, length};
ghost use Rattle.sign_adhoc.specs.Changed.{HaveTheirHashes, IsChanged, IsFirstOther};
ghost use Rattle.sign_adhoc.specs.Pages.{page_count};
ghost use Rattle.sign_adhoc.specs.Signature.{signature_size};
ghost use Rattle.sign_adhoc.specs.Standing.{IsAnswer, IsNamed, IsSigned};
ghost use Rattle.sign_adhoc.specs.Uuid.{image_uuid, with_uuid};
ghost use Rattle.sign_adhoc.specs.Written.{IsWritten};
ghost use Rattle.sign_adhoc.specs.declared.answer.Check.{Check};
ghost use Rattle.sign_adhoc.specs.declared.answer.Check.TheVariants.{Good, No};

/// An image that ends with the signature of what stands before it is signed, where a command names the signature.
pub fn what_is_signed_is_found_so()
    ensures { (image : List ℕ) (from : ℕ) (identifier : List ℕ) (text_size : ℕ) (main : Bool)
        → IsWritten image from identifier text_size main → IsNamed image from (signature_size (length identifier) from) → IsSigned image }
{}

/// A check has one answer.
pub fn one_answer()
    ensures { (image : List ℕ) (a b : Check) → IsAnswer image a → IsAnswer image b → a ≡ b }
{}

/// Of a signed image that was changed before its signature, which is still found, a check answers the first page that has
/// another hash than before, and `Good` exactly where each has its own.
pub fn a_change_is_told_of()
    ensures good { (signed image : List ℕ) (is : IsSigned signed) → IsChanged signed image is.signature
        → (IsAnswer image Good ↔ HaveTheirHashes signed image is.signature.from (page_count is.signature.from)) }
    ensures first { (signed image : List ℕ) (page : ℕ) (is : IsSigned signed) → IsChanged signed image is.signature
        → (IsAnswer image (No page) ↔ IsFirstOther signed image is.signature.from page) }
{}

/// The UUID of an image doesn't depend on what stands in its place.
pub fn the_place_of_a_uuid_counts_for_nothing()
    ensures { (at : ℕ) (uuid image : List ℕ) → length uuid ≡ 16 → at + 16 ≤ length image → image_uuid at (with_uuid at uuid image) ≡ image_uuid at image }
{}
