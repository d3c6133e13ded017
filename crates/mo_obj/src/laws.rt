//! What the definition of objects says, in words of its own.

ghost use Rattle.std.specs.Prelude.{◌≡◌, ℕ, List, Ok, Err};
ghost use Rattle.mo_types.specs.Kind as kinds;
ghost use Rattle.mo_types.specs.declared.kind.Kind.TheVariants as kind;
ghost use Rattle.mo_types.specs.declared.object.Object.{Object};
ghost use Rattle.mo_types.specs.declared.object_fault.ObjFault.{ObjFault};
ghost use Rattle.mo_obj.specs.Facts.{IsFaulty, IsObject, IsOneOrFaulty};
ghost use Rattle.mo_obj.specs.Faults.{IsObjFault};
ghost use Rattle.mo_obj.specs.Object.{object_of};
ghost use Rattle.mo_obj.specs.Read.{AreBytes, IsRead};

/// A file is one object at most.
#[tactic(auto, using(crate::proofs::FactsLaws::facts))]
pub fn one_object_at_most(bytes: &[u8])
    ensures { (one other : Object) → IsObject bytes.now one → IsObject bytes.now other → one ≡ other }
{}

/// A Mach-O file is one object, or has one first fault, and not both.
#[tactic(auto, using(crate::proofs::FactsLaws::facts))]
pub fn an_object_or_a_fault(bytes: &[u8])
    requires { kinds.kind_of bytes.now ≡ kind.MachO }
    ensures { IsOneOrFaulty bytes.now }
{}

/// An object is read exactly where the facts are those of that object: each field the number at its place, and no
/// rule that fails anywhere.
#[tactic(auto, using(crate::proofs::FactsLaws::facts))]
pub fn objects_are_read(bytes: &[u8])
    requires { kinds.kind_of bytes.now ≡ kind.MachO }
    ensures facts { (object : Object) → object_of bytes.now ≡ Ok object → IsObject bytes.now object }
    ensures read { (object : Object) → IsObject bytes.now object → object_of bytes.now ≡ Ok object }
{}

/// A fault is told exactly where it is the first: a rule fails at the place and at none before it, and each rule
/// before it fails nowhere; or, where every rule holds, a feature or the limit.
#[tactic(auto, using(crate::proofs::FactsLaws::facts))]
pub fn faults_are_told(bytes: &[u8])
    requires { kinds.kind_of bytes.now ≡ kind.MachO }
    ensures facts { (fault : ObjFault) → object_of bytes.now ≡ Err fault → IsFaulty bytes.now fault }
    ensures told { (fault : ObjFault) → IsFaulty bytes.now fault → object_of bytes.now ≡ Err fault }
{}

/// An object that the definition reads of bytes is whole, and its references can be read. A fault that it gives is one
/// that the bytes have, and never want of memory.
pub fn what_is_read_is_whole()
    ensures read { (bytes : List ℕ) (object : Object) → AreBytes bytes → object_of bytes ≡ Ok object → IsRead object }
    ensures faults { (bytes : List ℕ) (fault : ObjFault) → object_of bytes ≡ Err fault → IsObjFault fault }
{}
