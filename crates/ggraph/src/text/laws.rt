//! The laws that the proofs of reading a repository text use.

ghost use Rattle.ggraph.specs.steps.TextLaws.{TextLaws};

use gname::laws;

/// Proves the laws of ids and names. The function does nothing at run time, and its contract
/// states the laws.
pub(crate) fn text_laws()
    ensures { TextLaws }
{
    laws::ids_have_texts();
    laws::id_texts_are_digits();
    laws::texts_spell_one_id();
    laws::ids_have_one_format();
    laws::texts_have_one_reading();
    laws::names_are_clean();
    laws::rules_never_report_memory();
}
