//! What the rule of uniform bundles says, as the contract of a function that does nothing.
#![tactic(auto)]

ghost use Rattle.dc_split.specs.Laws.{UniformIsOne};

/// The law of uniform bundles, for those who build on the definition: the rule leaves one answer. So `uniform`
/// gives the same bundles whenever it is called on the same lengths. The call does nothing.
pub fn bundle_laws()
    ensures { UniformIsOne }
{}
