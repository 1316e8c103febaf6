//! Laws of policies: any text is one or has a fault, and says one thing; what denies a policy is one
//! text, empty exactly where the policy holds; and what a rule that holds says of the entries. Functions
//! with empty bodies whose contracts are the laws.
#![tactic(auto)]

ghost use Rattle.std.specs.Prelude.{ℕ, ◌≡◌, ◌≤◌, ◌↔◌, List, []};
ghost use Rattle.ct_entry.specs.declared.rows.Owner.{Owner};
ghost use Rattle.ct_entry.specs.Listed.{Listed};
ghost use Rattle.def_boot.specs.Gates.{entries_of};
ghost use Rattle.def_image.specs.Accepted.{IsFaultless};
ghost use Rattle.def_image.specs.Parts.{PartsRow};
ghost use Rattle.def_policy.specs.Breaking.{PolicyHolds, KeepsRule};
ghost use Rattle.def_policy.specs.Denials.{AllDenied};
ghost use Rattle.def_policy.specs.Resources.{kind_of};
ghost use Rattle.def_policy.specs.Rulings.{Ruling};
ghost use Rattle.def_policy.specs.Texts.{IsPolicyFault, ReadsAsPolicy};
ghost use Rattle.def_policy.specs.declared.Resource.{Resource};
ghost use Rattle.def_policy.specs.declared.Subject.TheVariants.{Data, Disabled, Only, Quota, Total};
ghost use Rattle.def_policy.specs.Denied.{AreDisabledListed, AreListed, HasDenials, ReadsOrHasFault, PassesData, limits_counted};

/// Any text is a policy of an image, or has a fault; never both. It says the same rules each time, and
/// has one fault.
pub fn texts_say_one_thing()
    ensures told { (p : PartsRow) (text : List ℕ) → ReadsOrHasFault p text }
    ensures never_both { (p : PartsRow) (text : List ℕ) (number line : ℕ) (rulings : List Ruling)
        → IsPolicyFault p text number line → ReadsAsPolicy p text rulings → ⊥ }
    ensures rules { (p : PartsRow) (text : List ℕ) (a b : List Ruling)
        → ReadsAsPolicy p text a → ReadsAsPolicy p text b → a ≡ b }
    ensures fault { (p : PartsRow) (text : List ℕ) (n m line other : ℕ)
        → IsPolicyFault p text n line → IsPolicyFault p text m other → (n ≡ m) × (line ≡ other) }
{}

/// A policy of an image that is accepted is denied by exactly one text, which is empty exactly where the
/// policy holds.
pub fn denials_are_exact()
    ensures there { (p : PartsRow) (text : List ℕ) (rulings : List Ruling)
        → IsFaultless p → ReadsAsPolicy p text rulings → HasDenials p 1 rulings }
    ensures one { (p : PartsRow) (rulings : List Ruling) (a b : List ℕ)
        → AllDenied p 1 rulings a → AllDenied p 1 rulings b → a ≡ b }
    ensures empty { (p : PartsRow) (rulings : List Ruling) (text : List ℕ)
        → AllDenied p 1 rulings text → (text ≡ [] ↔ PolicyHolds (entries_of p) rulings) }
{}

/// Where a rule holds of entries: each import that a rule on a device, on a shared object, on a service or
/// on an export for calls is about belongs to an owner that the rule lists; so does each export that turns
/// interrupts off; an export that is to pass data passes no capabilities; and the limits of all quotas, or
/// of an owner's, sum to no more than the rule allows.
pub fn rules_are_kept()
    ensures resources { (e : Listed) (r : Ruling) (resource : Resource) (n : ℕ)
        → r.subject ≡ Only resource n → KeepsRule e r → AreListed e r (kind_of resource) n }
    ensures disabled { (e : Listed) (r : Ruling)
        → r.subject ≡ Disabled → KeepsRule e r → AreDisabledListed e r }
    ensures passing { (e : Listed) (r : Ruling) (n : ℕ)
        → r.subject ≡ Data n → KeepsRule e r → PassesData e n }
    ensures total { (e : Listed) (r : Ruling) (n : ℕ)
        → r.subject ≡ Total n → KeepsRule e r → limits_counted (Total n) e.rows ≤ n }
    ensures quota { (e : Listed) (r : Ruling) (n : ℕ) (o : Owner)
        → r.subject ≡ Quota o n → KeepsRule e r → limits_counted (Quota o n) e.rows ≤ n }
{}
