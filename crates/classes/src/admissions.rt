//! Derivations that were admitted, each once.

ghost use Rattle.std.specs.Prelude.{◌≡◌, ◌++◌, [], ◌∷◌, IfOk, IfErr, IfSome, IfNone, OnOk, OnErr, Ok};
ghost use Rattle.classes.specs.Admitting.{admission_by, one_more, IsReadFrom, made_by, HasAdmitted};
ghost use Rattle.model.specs.Classes.{derivation_path, admit};
ghost use Rattle.model.specs.declared.refusal.Refusal.TheVariants.{Memory};

use crate::admission_input::AdmissionInput;
use crate::admitted::Admitted;
use crate::admitted_text::AdmittedText;
use crate::known::Known;
use aterm::Text;
use model::Refusal;
use std::alloc::Global;
use storepath::StorePath;

/// What a desk will know of the derivation of a text, if it is among these.
fn found<'a>(all: &'a [AdmittedText], text: &Text, known: &Known) -> Option<&'a Admitted>
    ensures read { IfSome result (λ a. IsReadFrom text.now a.now.derivation) }
    ensures admits { IfSome result (λ a. admit known.now a.now.derivation ≡ Ok a.now) }
    ensures has { IfSome result (λ _. HasAdmitted all.now known.now text.now) }
    ensures none { IfNone result (HasAdmitted all.now known.now text.now → ⊥) }
{
    for one in all {
        if one.is_for(text, known) {
            return Some(one.admitted());
        }
    }
    None
}

/// Derivations that were admitted before, and how many had to be admitted since. Each of these is kept
/// too.
pub struct Admissions {
    admitted: Vec<AdmittedText>,
    computed: u64,
}

impl Drop for Admissions {
    fn drop(self) {
        let Admissions {
            admitted: _,
            computed: _,
        } = self;
    }
}

impl Admissions {
    /// None. It takes no memory.
    pub fn none(alloc: Global) -> Admissions
        ensures { (result.admitted.items ≡ []) × (result.computed ≡ 0) }
    {
        Admissions {
            admitted: Vec::new(alloc),
            computed: 0,
        }
    }

    /// How many derivations had to be admitted; at the greatest number it stays there.
    pub fn computed(&self) -> u64
        ensures { result ≡ self.now.computed }
    {
        self.computed
    }

    /// What a desk will know of the derivation of a text, if it was admitted before with the inputs that the
    /// desk knows.
    pub fn find(&self, text: &Text, known: &Known) -> Option<&Admitted>
        ensures read { IfSome result (λ a. IsReadFrom text.now a.now.derivation) }
        ensures admits { IfSome result (λ a. admit known.now a.now.derivation ≡ Ok a.now) }
        ensures has { IfSome result (λ _. HasAdmitted self.now.admitted.items known.now text.now) }
        ensures none { IfNone result (HasAdmitted self.now.admitted.items known.now text.now → ⊥) }
    {
        found(self.admitted.as_slice(), text, known)
    }

    /// Admits a derivation, whose file has this path, and keeps it. The one error is memory.
    pub fn add(
        &mut self,
        alloc: Global,
        path: StorePath,
        input: AdmissionInput,
    ) -> Result<Admitted, Refusal>
        requires path { path ≡ derivation_path input.derivation }
        ensures admitted { IfOk result (λ a. a ≡ admission_by input.inputs input.derivation) }
        ensures kept { OnOk result (self.new.admitted.items
            ≡ self.old.admitted.items ++ made_by input ∷ []) }
        ensures computed { OnOk result (self.new.computed ≡ one_more self.old.computed) }
        ensures stays { OnErr result ((self.new.admitted.items ≡ self.old.admitted.items)
            × (self.new.computed ≡ self.old.computed)) }
        ensures memory { IfErr result (λ e. e ≡ Memory) }
    {
        let made = input.admit(alloc, path)?;
        let admitted = made.admitted().clone()?;
        self.admitted.push(made)?;
        self.computed = self.computed.saturating_add(1);
        Ok(admitted)
    }
}
