//! Laws of loaders on the events of texts.
ghost use Rattle.std.specs.Prelude.{◌≡◌, Bool, None, Ok, Err, List, ℕ};
ghost use Rattle.saphyr_parser.specs.Answer.{Answer};
ghost use Rattle.saphyr_parser.specs.EventsTaken.{AreTaken};
ghost use Rattle.saphyr_parser.specs.Nesting.{happenings};
ghost use Rattle.yaml_tree.specs.declared.tally.Limits.{Limits};
ghost use Rattle.yaml_tree.specs.declared.fault.TreeFault.TheVariants.{NotFresh};
ghost use Rattle.yaml_tree.specs.declared.document.Document.{Document};
ghost use Rattle.yaml_tree.specs.Unloading.{unload};
ghost use Rattle.yaml_tree.specs.Loading.{LoadsDocuments};
ghost use Rattle.yaml_tree.specs.DocumentLoading.{LoadsDocument, LoadsEach};

use saphyr_parser::law::{nests_each_forest, nests_events};

/// `load_documents` on a new parser never returns `NotFresh`, since a new parser promises that its events are taken
/// from the text (`taken`).
pub fn loads_new_parsers()
    ensures { (keep : Bool) (text : List ℕ) (limits : Limits) (all left : Answer)
        → AreTaken keep text all → LoadsDocuments limits (Err NotFresh) all left → ⊥ }
{
    nests_events();
}

/// `load_document` on a new parser, call after call, never returns `NotFresh` as long as each call gives a document.
/// Once it returns that there is none, the documents that it gave have exactly the events of the text, like those of
/// `load_documents`.
pub fn loads_one_by_one()
    ensures fresh { (keep : Bool) (text : List ℕ) (limits : Limits) (documents : List Document)
        (all left behind : Answer) → AreTaken keep text all → LoadsEach limits documents all left
        → LoadsDocument limits (Err NotFresh) left behind → ⊥ }
    ensures whole { (keep : Bool) (text : List ℕ) (limits : Limits) (documents : List Document)
        (all left behind : Answer) → AreTaken keep text all → LoadsEach limits documents all left
        → LoadsDocument limits (Ok None) left behind
        → (unload documents ≡ happenings all.events) × (all.fault ≡ None) }
{
    nests_each_forest();
    nests_events();
}
