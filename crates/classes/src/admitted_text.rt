//! A derivation that was admitted, with what it was admitted by.

ghost use Rattle.std.specs.Prelude.{◌≡◌, MatchResult, true};
ghost use Rattle.classes.specs.Admitting.{IsKnownAs, AreKnownAs, Admits, IsMade, IsFor};
ghost use Rattle.model.specs.declared.refusal.Refusal.TheVariants.{Memory};

use crate::admission_input::has_sources;
use crate::admitted::Admitted;
use crate::known::Known;
use aterm::Text;
use model::Refusal;
use std::marker::Model;
use std::sync::ArcSlice;

// Whether a desk knows the derivation of an input, and of it the same that a class takes.
fn is_known_as(known: &Known, input: &Admitted) -> bool
    ensures yes { result ≡ true → IsKnownAs known.now input.now }
    ensures no { IsKnownAs known.now input.now → result ≡ true }
{
    match known.derivation(input.path()) {
        Some(admitted) => {
            admitted.masked().as_slice() == input.masked().as_slice()
                && admitted.class().rank() == input.class().rank()
        }
        None => false,
    }
}

// Whether that is so of each of these inputs.
fn are_known_as(known: &Known, inputs: &[Admitted]) -> bool
    ensures yes { result ≡ true → AreKnownAs known.now inputs.now }
    ensures no { AreKnownAs known.now inputs.now → result ≡ true }
{
    for input in inputs {
        if !is_known_as(known, input) {
            return false;
        }
    }
    true
}

/// A derivation that was admitted, with its text and its inputs, as they were known.
pub(crate) struct AdmittedText {
    text: Text,
    inputs: ArcSlice<Admitted>,
    admitted: Admitted,
}

impl Drop for AdmittedText {
    fn drop(self) {
        let AdmittedText {
            text: _,
            inputs: _,
            admitted: _,
        } = self;
    }
}

impl Model for AdmittedText {
    ghost use Rattle.std.specs.Arc.{arc_slice_items};
    ghost use Rattle.classes.specs.Admitting.{IsMade, Made};

    ghost Value = { Made };

    ghost view = { λ a. record { text = a.text; inputs = arc_slice_items a.inputs; admission = a.admitted } };

    ghost invariant = { λ a. IsMade a.text (arc_slice_items a.inputs) a.admitted };
}

impl AdmittedText {
    /// The derivation with its text and these inputs. The one error is memory.
    pub(crate) fn new(
        text: Text,
        inputs: Vec<Admitted>,
        admitted: Admitted,
    ) -> Result<AdmittedText, Refusal>
        requires made { IsMade text inputs.items admitted }
        ensures { MatchResult result
            (λ made. made ≡ record { text = text; inputs = inputs.items; admission = admitted })
            (λ e. e ≡ Memory) }
    {
        let inputs = ArcSlice::from_vec(inputs)?;
        Ok(AdmittedText {
            text,
            inputs,
            admitted,
        })
    }

    /// What is known of the derivation.
    pub(crate) fn admitted(&self) -> &Admitted
        ensures admitted { result.now ≡ self.now.admission }
        ensures made { IsMade self.now.text self.now.inputs self.now.admission }
    {
        &self.admitted
    }

    /// Whether a desk knows its sources, and its inputs as they were known: then it admits it again.
    fn is_admitted_by(&self, known: &Known) -> bool
        ensures yes { result ≡ true → Admits known.now self.now }
        ensures no { Admits known.now self.now → result ≡ true }
    {
        let inputs = self.inputs.as_slice();
        let sources = &self.admitted.derivation().parts().sources;
        are_known_as(known, inputs) && has_sources(known, sources)
    }

    /// Whether it has this text, and a desk admits it again.
    pub(crate) fn is_for(&self, text: &Text, known: &Known) -> bool
        ensures yes { result ≡ true → IsFor known.now text.now self.now }
        ensures no { IsFor known.now text.now self.now → result ≡ true }
    {
        self.text.bytes() == text.bytes() && self.is_admitted_by(known)
    }
}
