//! What the definitions of options say together, as the contract of a function that does nothing.
#![tactic(auto)]

ghost use Rattle.dc_options.specs.Laws.{LettersAreOneOption, ValuesFollow, OrderIsFree};

/// The laws of options, for those who build on the definitions. The call does nothing.
///
/// - `letters`: a word that begins with `-p` is the option `-p`, whatever follows.
/// - `values`: the values of an option are the words behind its own, whatever they begin with.
/// - `order`: in words that are accepted, an option with its values may change places with the option or path beside it,
///   and what the words set stays the same.
#[tactic(auto, using(crate::proofs::LawProofs::laws))]
pub fn option_laws()
    ensures letters { LettersAreOneOption }
    ensures values { ValuesFollow }
    ensures order { OrderIsFree }
{}
