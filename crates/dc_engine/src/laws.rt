//! What a run knows once it has surveyed, as the contract of a function that does nothing.
#![tactic(auto)]

ghost use Rattle.dc_engine.specs.Begun.{DecisionsArePlans, FilesMayBeLeft, PlansAreReady, SameItemsLack};

/// The laws of what is found before the target is changed, for those who build on the definitions. The call does nothing.
///
/// - `plans`: the decisions on what a survey lists, where the copy goes on without what clashes, are a plan of it.
/// - `left`: they stay one where the copy goes on without a file more.
/// - `same`: the paths that are missing from a plan are missing from each plan that has the same items.
/// - `ready`: a plan of what a survey lists is ready to be carried out, with the paths that are missing under `-delete` and
///   with none without it. It is the plan of the copy that options and both trees define, no tree refuses a step of that, and
///   with `-atomic` nothing stands at the target and at the work path, which are apart.
pub fn survey_laws()
    ensures plans { DecisionsArePlans }
    ensures left { FilesMayBeLeft }
    ensures same { SameItemsLack }
    ensures ready { PlansAreReady }
{}
