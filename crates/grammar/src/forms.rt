// The forms that a question on a rule names.
ghost use Rattle.std.specs.Prelude.{◌≡◌, is_some};
ghost use Rattle.grammar.specs.Questions.{forms_of};

// Whether the forms are those of so many arguments: 0 to 7 for each argument, and 0 past them. The check of an image asks it form by
// form, as its demand is stated.
#[tactic(auto, using(crate::proofs::FormRanges::no_argument_left, crate::proofs::FormRanges::an_argument_more))]
pub fn are_forms(arity: u8, forms: &[u8]) -> bool
    ensures { result ≡ is_some (forms_of arity forms.now) }
{
    let [form, rest @ ..] = forms else {
        return arity == 0;
    };
    if arity == 0 {
        *form == 0 && are_forms(0, rest)
    } else {
        *form <= 7 && are_forms(arity - 1, rest)
    }
}
