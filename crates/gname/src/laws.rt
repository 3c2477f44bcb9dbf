//! Laws of ids, names and prefixes. Each function does nothing at run time, and its contract states
//! the law. A proof may use the law after a call of the function.

ghost use Rattle.std.specs.Prelude.{◌≡◌};
ghost use Rattle.gname.specs.Formats.{id_text_length};
ghost use Rattle.gname.specs.declared.formats.Format.TheVariants.{Sha256};
ghost use Rattle.gname.specs.Limits.{max_pack};
ghost use Rattle.gname.specs.Names.{IsRefName, head_name, max_name};
ghost use Rattle.gname.specs.Components.{ComponentsAreParts};
ghost use Rattle.gname.specs.Laws.{FirstPlacesAreFirst, IdsHaveOneFormat, IdsHaveTexts, IdTextsAreDigits, NamesAreClean, PrefixesAreClean, RulesNeverReportMemory, TextsHaveOneReading, TextsSpellOneId};

use crate::{MAX_ID_TEXT, MAX_NAME, MAX_PACK};

/// Proves that the text of an id, in lower case or in upper case, encodes that id.
pub fn ids_have_texts()
    ensures { IdsHaveTexts }
{}

/// Proves that the text of an id has only hexadecimal digits, so it has no control characters and
/// no spaces. The id that the text encodes is valid.
#[tactic(auto, using(crate::proofs::IdLemmas::id_texts_are_digits))]
pub fn id_texts_are_digits()
    ensures { IdTextsAreDigits }
{}

/// Proves that a text encodes at most one id.
#[tactic(auto, using(crate::proofs::IdLemmas::texts_spell_one_id))]
pub fn texts_spell_one_id()
    ensures { TextsSpellOneId }
{}

/// Proves that if bytes are an id of a format, they are a valid id, and
/// [`Oid::format`](crate::Oid::format) returns that format.
#[tactic(auto, using(crate::proofs::IdLemmas::ids_have_one_format))]
pub fn ids_have_one_format()
    ensures { IdsHaveOneFormat }
{}

/// Proves that the result of parsing a text is unique in each format. A text that encodes an id
/// parses to that id.
pub fn texts_have_one_reading()
    ensures { TextsHaveOneReading }
{}

/// Proves that a ref name has 1 to 1,000 bytes. It has no control character, DEL, space or any of
/// `~ ^ : ? * [ \`. A ref name is `HEAD` or begins with `refs/`. Every ref name is also a valid
/// prefix.
pub fn names_are_clean()
    ensures { NamesAreClean }
{}

/// Proves that `HEAD` is a ref name.
#[tactic(auto, using(crate::proofs::NameLemmas::head_is_a_name))]
pub fn head_is_a_name()
    ensures { IsRefName head_name }
{}

/// Proves that a prefix has at most 1,000 bytes, and no byte that is forbidden in names.
#[tactic(auto, using(crate::proofs::NameLemmas::prefixes_are_clean))]
pub fn prefixes_are_clean()
    ensures { PrefixesAreClean }
{}

/// Proves that the constants for limits equal the limits in the specs.
pub fn limits_are_the_constants()
    ensures id_text { MAX_ID_TEXT ≡ id_text_length Sha256 }
    ensures name { MAX_NAME ≡ max_name }
    ensures pack { MAX_PACK ≡ max_pack }
{}

/// Proves that the rules for names and prefixes in the specs never give the fault `Memory`.
pub fn rules_never_report_memory()
    ensures { RulesNeverReportMemory }
{}

/// Proves that `first_place`, which the specs define, finds the first position that passes a test.
/// The faults `Component`, `DoubleDot` and `AtBrace` report the position that `first_place` finds.
#[tactic(auto, using(crate::proofs::PlaceLemmas::first_places_are_first))]
pub fn first_places_are_first()
    ensures { FirstPlacesAreFirst }
{}

/// Proves that the components of a text are its parts between slashes, and that every text has at
/// least one component. A ref name has no component that is empty, begins with a dot or ends with
/// `.lock`. The fault `Component` is reported exactly when the text has a component that breaks
/// this rule and no earlier rule finds a fault. The reported position is the start of the first
/// component that breaks the rule.
pub fn components_are_parts()
    ensures { ComponentsAreParts }
{}
