//! The promises on a parser's events, and the laws that prove them, of a cursor in the list of the events that tokens
//! give. The parser's contracts cite both.
//!
//! The functions are laws: they do nothing, and what matters is their proved clauses.
#![tactic(auto)]

ghost use Rattle.std.specs.Prelude.{Bool, List, [], ◌∷◌, ◌++◌, true, ℕ, ◌≡◌, ◌≢◌, ◌⊎◌, IsTrue, slice_index, ◌<◌, ◌≤◌, ◌^◌, length, None, Ok, Option, Some};
ghost use Rattle.event_laws.specs.Limits.{most_characters};
ghost use Rattle.event_laws.specs.Nesting.{IsAtStart, IsNested, IsWhole, Nest, nest_before_stream, nest_behind_all, nest_behind_stream};
ghost use Rattle.event_laws.specs.Anchors.{IsLatest, anchors, latest_id};
ghost use Rattle.event_laws.specs.Preorder.{Part, parts};
ghost use Rattle.event_laws.specs.ForestEvents.{events};
ghost use Rattle.saphyr_scanner.specs.Grammar.Forest.{Forest};
ghost use Rattle.yaml_laws.specs.Grammar.Json.{IsJson};
ghost use Rattle.saphyr_input.specs.Breaks.{normalized};
ghost use Rattle.saphyr_scanner.specs.Steps.Remaining.{scan};
ghost use Rattle.saphyr_scanner.specs.Views.Tokens.{Piece, Remaining};
ghost use Rattle.saphyr_scanner.specs.SpansInOrder.{AreInOrder};
ghost use Rattle.saphyr_machine.specs.Cursor.{EventCursor, at_start, keeping_tags, to_come};
ghost use Rattle.saphyr_machine.specs.Loading.{portion_to_send};
ghost use Rattle.saphyr_scanner.specs.Grammar.TokenGrammar.{Yields};
ghost use Rattle.saphyr_scanner.specs.Grammar.Tokens.{Kind};
ghost use Rattle.saphyr_scanner.specs.Grammar.Tokens as tokens;
ghost use Rattle.event_laws.specs.Exactly.{GivesExactly, EmitTheSame, kinds, answer_of_tokens};
ghost use Rattle.saphyr_machine.specs.Events.{DocumentEnd, Happening};
ghost use Rattle.event_laws.specs.EventsTaken.{AreTaken, BeginsEachForest, BeginsSomeForest, HasPlaceIn, IsCut};
ghost use Rattle.event_laws.specs.Premises.{DocumentMarker, GivesFirst, HasOneMeaning, MeanTheSame, events_behind_marker};
ghost use Rattle.event_laws.specs.Promises.{IsShallowJson, KeepsSpans, TakesEvents};
ghost use Rattle.saphyr_scalar.specs.declared.scalar.position.Span.{Span};
ghost use Rattle.saphyr_scalar.specs.declared.scalar.fault.Refusal.{Refusal};
ghost use Rattle.saphyr_scanner.specs.Limits.{most_open};
ghost use Rattle.saphyr_scanner.specs.AtPlaces.{AreAtPlaces};
ghost use Rattle.saphyr_scanner.specs.Ends.{EndsWithStream};
ghost use Rattle.saphyr_input.specs.Classes.{is_blank_or_breakz};
ghost use Rattle.saphyr_input.specs.Indicators.{colon};
ghost use Rattle.saphyr_scalar.specs.Views.Cursor.{Cursor};
ghost use Rattle.saphyr_scanner.specs.TokensInPlace.{Begun, Property, Content, with_begun, not_enclosed, may_stand};
ghost use Rattle.saphyr_scanner.specs.TokensTaken.{AreTakenFrom, IsPlaceOf, IsToken, no_collections, surroundings_in, with_ends_json};
ghost use Rattle.yaml_laws.specs.Grammar.Yaml.{IsYamlText};
ghost use Rattle.event_laws.specs.WellFormed.{AreWellFormed};
ghost use Rattle.saphyr_machine.specs.Steps.Machine.{Machine, Emitted, ending_refusal};
ghost use Rattle.saphyr_machine.specs.Steps.Expected.{event_step};
ghost use Rattle.saphyr_machine.specs.Answer.{Answer, Ending, with_first_event, remaining_answer};
ghost use Rattle.saphyr_machine.specs.Calls.{Advances};
ghost use Rattle.event_laws.specs.Settings.{with_keep_tags, with_setting};
ghost use Rattle.saphyr_machine.specs.declared.state.State.TheVariants.{DocumentEnd as AtDocumentEnd};
ghost use Rattle.event_laws.specs.More.{BeginsAs, marker_token, with_more};

use saphyr_scanner::law::bounds_tokens;
use yaml_laws::{is_yaml_text, scans_breaks_alike, scans_each_yaml_text};

/// The events of each forest nest, from before the stream to after it. Of events that lead to the stream's end a
/// beginning nests too, and if no fault cuts it off, it is all of them.
pub fn nests_each_forest()
    ensures whole { (forest : Forest) (keep : Bool) (emitted : List Happening)
        → events forest keep ≡ Some emitted
        → nest_behind_all emitted nest_before_stream ≡ Some nest_behind_stream }
    ensures cut { (ending : Option Ending) (emitted missing : List Happening) (nest : Nest)
        → IsCut ending missing
        → nest_behind_all (emitted ++ missing) nest ≡ Some nest_behind_stream
        → IsWhole ending (nest_behind_all emitted nest) }
{}

/// Events that are taken from a text, as those of a new parser are, nest: each end belongs to what has begun last, and
/// each key has its value. They begin with the stream's start, and are complete if no fault ends them.
pub fn nests_events()
    ensures nests { (keep : Bool) (text : List ℕ) (a : Answer) → AreTaken keep text a
        → IsNested a }
    ensures starts { (keep : Bool) (text : List ℕ) (a : Answer) → AreTaken keep text a
        → IsAtStart a }
{}

/// An alias has the latest anchor of its name: between the two, the document has only parts without one.
pub fn finds_the_latest_anchor()
    ensures found { (name : List ℕ) (front : List Part) (id : ℕ) → latest_id name front ≡ Some id
        → IsLatest name front id }
    ensures each { (name : List ℕ) (front : List Part) (id : ℕ) → IsLatest name front id
        → latest_id name front ≡ Some id }
{}

/// Each text of JSON has events.
pub fn has_events()
    ensures { (forest : Forest) (text : List ℕ) (keep : Bool) → IsJson forest text
        → (emitted : List Happening) × (events forest keep ≡ Some emitted) }
{}

/// A forest has no more anchors than tokens.
pub fn counts_anchors()
    ensures { (forest : Forest) (tokens : List Kind) → Yields forest tokens
        → anchors (parts forest) ≤ length tokens }
{}

/// The tokens of a forest give exactly its events, and no fault, and so does a parser that reads them. This
/// includes the ids of anchors as long as there are fewer than 2^64 anchors.
pub fn gives_each_forest()
    ensures machine { (forest : Forest) (keep : Bool) (pieces : List Piece)
        (emitted : List Happening) → Yields forest (kinds pieces) → anchors (parts forest) < 2 ^ 64
        → events forest keep ≡ Some emitted → GivesExactly emitted (answer_of_tokens keep pieces) }
    ensures parser { (forest : Forest) (keep : Bool) (tokens : Remaining) (emitted : List Happening)
        → Yields forest (kinds tokens.pieces) → tokens.refusal ≡ None
        → anchors (parts forest) < 2 ^ 64 → events forest keep ≡ Some emitted
        → GivesExactly emitted (to_come (keeping_tags keep (at_start tokens))) }
{}

/// If the spans of tokens come one after the other at places of a text, each event's span starts at or before its end,
/// and both are places of that text.
pub fn keeps_spans_in()
    ensures { (text : List ℕ) (tokens : Remaining) → AreInOrder (length text) 0 tokens.pieces
        → AreAtPlaces text tokens.pieces
        → KeepsSpans text (at_start tokens) }
{}

/// With `multi`, the portion that `load` sends is all events that are still to come, as iteration gives them,
/// and the fault after them.
pub fn loads_all_events()
    ensures { (parser : EventCursor) → portion_to_send true parser
        ≡ record { sent = (to_come parser).events; fault = (to_come parser).fault } }
{}

/// A text has one meaning: all its forests have the same events, if they have any. This holds for each grammar
/// whose texts a parser reads, since the parser's one list is the events of each of their forests: for that of
/// YAML, for JSON, and for a text of both.
pub fn has_one_meaning()
    ensures yaml { (text : List ℕ) → length text ≤ most_characters
        → HasOneMeaning (IsYamlText most_open) text }
    ensures json { (text : List ℕ) → length text ≤ most_characters
        → HasOneMeaning (IsShallowJson most_open) text }
    ensures both { (text : List ℕ) → length text ≤ most_characters
        → MeanTheSame (IsShallowJson most_open) (IsYamlText most_open) text }
{
    is_yaml_text();
    scans_each_yaml_text();
    bounds_tokens();
}

/// The events of any tokens are a beginning of some forest's, whose tokens begin as those do. If no fault ends
/// them, they are all of that forest's. They are also a beginning of the events of each forest whose tokens begin with
/// all of those.
pub fn begins_forests()
    ensures some { (tokens : Remaining) (keep : Bool) → AreWellFormed tokens.pieces
        → length tokens.pieces < 2 ^ 64
        → BeginsSomeForest keep tokens (to_come (keeping_tags keep (at_start tokens))) }
    ensures each { (tokens : Remaining) (keep : Bool)
        → BeginsEachForest keep tokens.pieces (to_come (keeping_tags keep (at_start tokens))) }
{}

/// Let tokens begin at places of a text, and end with the end of the stream or with a refusal at a place of the text.
/// Then a refusal that ends their events is at a place of the text too.
pub fn refuses_at_tokens()
    ensures { (text : List ℕ) (tokens : Remaining) (keep : Bool) → AreAtPlaces text tokens.pieces
        → EndsWithStream tokens → ((e : Refusal) → tokens.refusal ≡ Some e → IsPlaceOf text e.mark)
        → HasPlaceIn text (to_come (keeping_tags keep (at_start tokens))).fault }
{}

/// The events of tokens that are taken from a text are taken from it too, if there are fewer than 2^64 tokens and
/// the end of the stream or a refusal ends them.
pub fn takes_all_events()
    ensures { (text : List ℕ) (tokens : Remaining) → AreTakenFrom text tokens
        → EndsWithStream tokens → length tokens.pieces < 2 ^ 64
        → TakesEvents text (at_start tokens) }
{
    saphyr_scanner::law::places_taken_tokens();
}

/// Where no collection is open, no token is at a colon that parts a key from its value, on the line of the content or
/// of the properties before it. So no document ends there, behind which another token comes.
pub fn stands_at_no_colon()
    ensures { (begun : Begun) (kind : Kind) (span : Span) (ends_json : Bool) (s t : Cursor)
        (more : List ℕ) → (begun ≡ Property s.mark.line) ⊎ (begun ≡ Content s.mark.line)
        → 0 < s.mark.index → 0 < s.mark.col → s.rest ≡ colon ∷ more
        → IsTrue (is_blank_or_breakz (slice_index more 0))
        → IsTrue (may_stand (with_begun begun not_enclosed) kind span)
        → ¬ IsToken (surroundings_in (with_ends_json ends_json no_collections)) kind span s t }
{}

/// Each step takes tokens only from the head. If it gives an event, it gives the same one when more tokens follow, and
/// leaves those too. So the events of some tokens also come first when more tokens follow. If they end without a fault,
/// or by another fault than the end of the tokens, nothing comes after them.
pub fn begins_alike()
    ensures step { (m : Machine) (more : List Piece) (refusal : Option Refusal) (x : Emitted)
        → event_step m ≡ Ok x → event_step (with_more more refusal m)
        ≡ Ok (record x { machine = with_more more refusal x.machine }) }
    ensures machine { (m : Machine) (more : List Piece) (refusal : Option Refusal)
        → BeginsAs (ending_refusal m.tokens.refusal) (remaining_answer m)
        (remaining_answer (with_more more refusal m)) }
    ensures parser { (tokens : Remaining) (more : List Piece) (refusal : Option Refusal)
        (keep : Bool) → BeginsAs (ending_refusal tokens.refusal)
        (to_come (keeping_tags keep (at_start tokens)))
        (to_come (keeping_tags keep
        (at_start (record { pieces = tokens.pieces ++ more; refusal = refusal })))) }
{}

/// The kinds of tokens decide their events, except for the spans.
pub fn emits_by_kinds()
    ensures exactly { (keep : Bool) (one other : Remaining) (emitted : List Happening)
        → kinds one.pieces ≡ kinds other.pieces
        → GivesExactly emitted (to_come (keeping_tags keep (at_start one)))
        → GivesExactly emitted (to_come (keeping_tags keep (at_start other))) }
    ensures first { (keep : Bool) (one other : Remaining) (emitted : List Happening)
        → kinds one.pieces ≡ kinds other.pieces
        → GivesFirst emitted (to_come (keeping_tags keep (at_start one)))
        → GivesFirst emitted (to_come (keeping_tags keep (at_start other))) }
{}

/// CR LF, CR and LF are the same: each text gives the events of its normalized text, except for the spans, and
/// a fault ends both or none.
pub fn emits_breaks_alike()
    ensures { (limit : ℕ) (keep : Bool) (text : List ℕ) → length text < 2 ^ 63 → length text ≤ limit
        → EmitTheSame (to_come (keeping_tags keep (at_start (scan limit text))))
        (to_come (keeping_tags keep (at_start (scan limit (normalized text))))) }
{
    scans_breaks_alike();
}

/// Let tokens end with `---` or `...` and the end of the stream. Whatever follows that `---` or `...` in place of the
/// stream's end, their events up to the marker's own come first.
pub fn closes_tokens()
    ensures { (keep : Bool) (marker : DocumentMarker) (earlier more : List Kind)
        (alone : List Piece) (followed : Remaining) (first : List Happening)
        → kinds alone ≡ earlier ++ marker_token marker ∷ tokens.StreamEnd ∷ []
        → kinds followed.pieces ≡ earlier ++ marker_token marker ∷ more
        → GivesExactly (first ++ events_behind_marker marker) (answer_of_tokens keep alone)
        → GivesFirst first (to_come (keeping_tags keep (at_start followed))) }
{}

/// The setting of `keep_tags` matters only at the ends of documents. Any other event is the same whatever the
/// setting, and so is what comes after it, whether the setting is changed before that event or after it.
pub fn sets_at_document_ends()
    ensures step { (m : Machine) (keep : Bool) → m.state ≢ AtDocumentEnd
        → event_step (with_keep_tags keep m) ≡ with_setting keep (event_step m) }
    ensures event { (e : Happening × Span) (old new : EventCursor) (keep : Bool) → e.0 ≢ DocumentEnd
        → Advances e old new → Advances e (keeping_tags keep old) (keeping_tags keep new) }
    ensures list { (e : Happening × Span) (old new : EventCursor) (keep : Bool) → e.0 ≢ DocumentEnd
        → Advances e old new → to_come (keeping_tags keep old)
        ≡ with_first_event e (to_come (keeping_tags keep new)) }
{}
