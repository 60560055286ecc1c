//! The top call.
#![tactic(auto)]

ghost use Rattle.std.specs.Prelude.{◌≡◌, ◌≤◌, ◌⊎◌, ◌++◌, true, false, Err, IsOkAnd, IfOk};
ghost use Rattle.std.specs.Option.{is_some, option_map};
ghost use Rattle.dc_fs.specs.Causes.{IsSteady, Rose, raised, steady_at};
ghost use Rattle.dc_fs.specs.Rest.{SweepStops};
ghost use Rattle.dc_fs.specs.Temporaries.{WriteStops};
ghost use Rattle.dc_fs.specs.Views.{BothTrees, view};
ghost use Rattle.dc_listing.specs.Errors.{Passes};
ghost use Rattle.dc_crew.specs.Slots.{StandStill};
ghost use Rattle.dc_options.specs.Reading.{options};
ghost use Rattle.dc_options.specs.declared.errors.OptionError.{OptionError};
ghost use Rattle.dc_engine.specs.Copying.{IfCopyFailed};
ghost use Rattle.dc_engine.specs.Finishing.{Gains, IsAsItWas, IsSure, ShowsEnd, is_of_finish};
ghost use Rattle.dc_engine.specs.Outcomes.{IfTooLong, is_big_pattern, is_source_fault, is_target_fault};
ghost use Rattle.dc_engine.specs.Preparing.{AreWaves, KeepsSource};
ghost use Rattle.dc_engine.specs.Running.{HasCopied, IsStopped, IsToCopy, commits, without};
ghost use Rattle.dc_output.specs.Output.{lines};
ghost use Rattle.dc_cli.specs.Verdict.{IsVerdict, Settles, is_refused, is_verdict, outcome_of_words};

use dc_engine::{Counts, Outcome, Run, run};
use dc_filter::Patterns;
use dc_fs::{Sink, Source, Target};
use dc_options::{OptionError, Options};
use dc_output::{Answer, print};
use dc_path::Text;
use std::alloc::Global;
use std::thread::Threads;

// How a run ends whose words are no options.
fn refused_words(error: OptionError) -> Outcome
    ensures { result ≡ outcome_of_words error }
{
    match error {
        OptionError::Memory => Outcome::Memory,
        error => Outcome::BadOption { error },
    }
}

// The answer of a run whose words are no options.
fn unasked(error: OptionError) -> Run
    ensures outcome { result.outcome ≡ outcome_of_words error }
    ensures counts { result.counts ≡ Counts.NONE }
    ensures moves { result.moves ≡ 0 }
{
    Run {
        outcome: refused_words(error),
        counts: Counts::NONE,
        moves: 0,
    }
}

// Runs what words ask for.
fn run_words<R: Threads + Sync, S: Source, T: Target, P: Patterns>(
    rt: &R,
    alloc: Global,
    words: &[Text],
    source: &mut S,
    target: &mut T,
    pats: &mut P,
) -> Run
    ensures source { KeepsSource (view S.Store source.old) (view S.Store source.new) }
    ensures source_fault { is_source_fault result.outcome ≡ true → Rose (S.faults source.old) (S.faults source.new) }
    ensures source_still { commits result.outcome ≡ true → S.faults source.new ≡ S.faults source.old }
    ensures desks { (T.rest target.new).desks_out ≡ (T.rest target.old).desks_out }
    ensures target_later { T.faults target.old ≤ T.faults target.new }
    ensures calm { steady_at (T.steady target.new) (T.faults target.new) ≡ steady_at (T.steady target.old) (T.faults target.old) }
    ensures left { commits result.outcome ≡ false → (T.rest target.new ≡ T.rest target.old) ⊎ (((T.rest target.new).scratch ≡ 0) ⊎ Rose (T.faults target.old) (T.faults target.new)) }
    ensures untouched { is_refused result.outcome ≡ true → IsAsItWas (view T.Store target.old) (view T.Store target.new) }
    ensures unchanged { is_refused result.outcome ≡ true → SweepStops (T.rest target.old) (T.rest target.new) }
    ensures emptied { is_of_finish result.outcome ≡ true → is_target_fault result.outcome ≡ true → ((T.rest target.new).scratch ≡ 0) ⊎ Rose (raised (T.faults target.old)) (T.faults target.new) }
    ensures shows { IfOk (options words.now) (λ o. ShowsEnd o result.outcome (view S.Store source.old) (view S.Store source.new) (view T.Store target.old) (view T.Store target.new)) }
    ensures patterns { P.refused pats.old ≤ P.refused pats.new }
    ensures big { is_big_pattern result.outcome ≡ true → Rose (P.refused pats.old) (P.refused pats.new) }
    ensures gained { commits result.outcome ≡ true → Gains result.counts (T.rest target.old).landed (T.rest target.new).landed }
    ensures filtered { is_big_pattern result.outcome ≡ true → IfOk (options words.now) (λ o. is_some o.filters ≡ true) }
    ensures too_long { IfTooLong result.outcome Passes }
    ensures waves { commits result.outcome ≡ true → StandStill (S.rest source.old) (S.rest source.new) (T.rest target.old) (T.rest target.new) →
        IfOk (options words.now) (λ o. BothTrees (S.tree source.old) (T.tree target.old) (λ s t. AreWaves o s t (T.rest target.old) (T.rest target.new))) }
    ensures words { (error : OptionError) → result.outcome ≡ Outcome.BadOption error → options words.now ≡ Err error }
    ensures due { (error : OptionError) → options words.now ≡ Err error → (result.outcome ≡ Outcome.BadOption error) ⊎ (result.outcome ≡ Outcome.Memory) }
    ensures unasked { (error : OptionError) → options words.now ≡ Err error → view T.Store target.new ≡ view T.Store target.old }
    ensures copied { commits result.outcome ≡ true → IsOkAnd (options words.now) (λ o. BothTrees (S.tree source.old) (T.tree target.old) (λ s t.
        HasCopied o s t (without result.outcome) result.counts (view S.Store source.old) (view S.Store source.new) (view T.Store target.old) (view T.Store target.new))) }
    ensures verdict { is_verdict result.outcome ≡ true → BothTrees (S.tree source.old) (T.tree target.old) (λ s t. IsVerdict words.now s t result.outcome) }
    ensures sure { BothTrees (S.tree source.old) (T.tree target.old) (λ s t. IsSure result.outcome) }
    ensures stopped_early { commits result.outcome ≡ false → IfOk (options words.now) (λ o. BothTrees (S.tree source.old) (T.tree target.old) (λ s t.
        IsStopped o s t result.outcome (view T.Store target.old) (view T.Store target.new))) }
    ensures named { IfOk (options words.now) (λ o. BothTrees (S.tree source.old) (T.tree target.old) (λ s t. IfCopyFailed result.outcome (IsToCopy o s t))) }
    ensures uncounted { commits result.outcome ≡ false → result.counts ≡ Counts.NONE }
    ensures moves { result.moves ≡ 0 }
{
    match Options::read(alloc, words) {
        Ok(options) => run(rt, alloc, &options, source, target, pats),
        Err(error) => unasked(error),
    }
}

/// Copies what the words ask for from the source to the target, and prints what was done to the sink.
///
/// The words are options and paths, of which the last is the target. `pats` reads the patterns of `-filters`. Workers run as threads of
/// `rt`, 64 at most.
#[tactic(auto, using(crate::proofs::TopLemmas::settled_told))]
pub fn distcp<R: Threads + Sync, S: Source, T: Target, P: Patterns, O: Sink>(
    rt: &R,
    alloc: Global,
    words: &[Text],
    source: &mut S,
    target: &mut T,
    pats: &mut P,
    out: &mut O,
) -> Answer
    // Words alone decide whether they are refused, whatever the stores tell. Where they are, the target is as it was.
    ensures words { (error : OptionError) → result.outcome ≡ Outcome.BadOption error → options words.now ≡ Err error }
    ensures due { (error : OptionError) → options words.now ≡ Err error → (result.outcome ≡ Outcome.BadOption error) ⊎ (result.outcome ≡ Outcome.Memory) }
    ensures unasked { (error : OptionError) → options words.now ≡ Err error → view T.Store target.new ≡ view T.Store target.old }
    // Words and trees decide the outcome, unless a store fails or memory runs out. A store that tells its tree never denies what it
    // showed, and no digests differ.
    ensures verdict { is_verdict result.outcome ≡ true → BothTrees (S.tree source.old) (T.tree target.old) (λ s t. IsVerdict words.now s t result.outcome) }
    ensures sure { BothTrees (S.tree source.old) (T.tree target.old) (λ s t. IsSure result.outcome) }
    ensures untouched { is_refused result.outcome ≡ true → IsAsItWas (view T.Store target.old) (view T.Store target.new) }
    ensures unchanged { is_refused result.outcome ≡ true → SweepStops (T.rest target.old) (T.rest target.new) }

    // A run that commits was asked for, and leaves exactly the result: each listed file that is not skipped landed once and nothing
    // else has, what it went on without is told, and the counters are exact.
    ensures copied { commits result.outcome ≡ true → IsOkAnd (options words.now) (λ o. BothTrees (S.tree source.old) (T.tree target.old) (λ s t.
        HasCopied o s t (without result.outcome) result.counts (view S.Store source.old) (view S.Store source.new) (view T.Store target.old) (view T.Store target.new))) }
    // Told or not, as many files and bytes have landed as the counters say. Where nothing failed, a temporary was created for each piece
    // and each attempt that is stopped after that. It met no fault of the source that it was given.
    ensures gained { commits result.outcome ≡ true → Gains result.counts (T.rest target.old).landed (T.rest target.new).landed }
    ensures waves { commits result.outcome ≡ true → StandStill (S.rest source.old) (S.rest source.new) (T.rest target.old) (T.rest target.new) →
        IfOk (options words.now) (λ o. BothTrees (S.tree source.old) (T.tree target.old) (λ s t. AreWaves o s t (T.rest target.old) (T.rest target.new))) }
    ensures source_still { commits result.outcome ≡ true → S.faults source.new ≡ S.faults source.old }

    // A run that ends early leaves the tree and the record of landings as its phase has reached them.
    ensures stopped_early { commits result.outcome ≡ false → IfOk (options words.now) (λ o. BothTrees (S.tree source.old) (T.tree target.old) (λ s t.
        IsStopped o s t result.outcome (view T.Store target.old) (view T.Store target.new))) }
    ensures emptied { is_of_finish result.outcome ≡ true → is_target_fault result.outcome ≡ true → ((T.rest target.new).scratch ≡ 0) ⊎ Rose (raised (T.faults target.old)) (T.faults target.new) }
    ensures left { commits result.outcome ≡ false → (T.rest target.new ≡ T.rest target.old) ⊎ (((T.rest target.new).scratch ≡ 0) ⊎ Rose (T.faults target.old) (T.faults target.new)) }
    ensures named { IfOk (options words.now) (λ o. BothTrees (S.tree source.old) (T.tree target.old) (λ s t. IfCopyFailed result.outcome (IsToCopy o s t))) }

    // What counts show of each outcome, whatever the stores tell.
    ensures shows { IfOk (options words.now) (λ o. ShowsEnd o result.outcome (view S.Store source.old) (view S.Store source.new) (view T.Store target.old) (view T.Store target.new)) }
    ensures source_fault { is_source_fault result.outcome ≡ true → Rose (S.faults source.old) (S.faults source.new) }
    ensures big { is_big_pattern result.outcome ≡ true → Rose (P.refused pats.old) (P.refused pats.new) }
    ensures filtered { is_big_pattern result.outcome ≡ true → IfOk (options words.now) (λ o. is_some o.filters ≡ true) }
    ensures too_long { IfTooLong result.outcome Passes }
    // What is steady stays so, and shows no fault.
    ensures no_source_fault { IsSteady (S.steady source.old) (S.faults source.old) → is_source_fault result.outcome ≡ true → ⊥ }
    ensures no_target_fault { IsSteady (T.steady target.old) (T.faults target.old) → is_target_fault result.outcome ≡ true → ⊥ }

    // Then words and trees decide the outcome, but for want of memory and a pattern that is too big.
    ensures settled { IsSteady (S.steady source.old) (S.faults source.old) → IsSteady (T.steady target.old) (T.faults target.old) →
        BothTrees (S.tree source.old) (T.tree target.old) (λ s t. Settles words.now s t result.outcome) }

    // What each store keeps, whatever comes.
    ensures source { KeepsSource (view S.Store source.old) (view S.Store source.new) }
    ensures desks { (T.rest target.new).desks_out ≡ (T.rest target.old).desks_out }
    ensures target_later { T.faults target.old ≤ T.faults target.new }
    ensures calm { steady_at (T.steady target.new) (T.faults target.new) ≡ steady_at (T.steady target.old) (T.faults target.old) }
    ensures patterns { P.refused pats.old ≤ P.refused pats.new }

    ensures no_counts { commits result.outcome ≡ false → result.counts ≡ Counts.NONE }
    ensures moves { result.moves ≡ 0 }

    ensures printed { result.printed ≡ true → O.bytes out.new ≡ option_map (λ old. old ++ lines result.outcome result.counts) (O.bytes out.old) }
    ensures stopped { result.printed ≡ false → WriteStops (O.limit out.old) (lines result.outcome result.counts) (O.bytes out.old) (O.bytes out.new) }
    ensures limit { O.limit out.new ≡ O.limit out.old }
    ensures later { O.faults out.old ≤ O.faults out.new }
    ensures cause { result.printed ≡ false → Rose (O.faults out.old) (O.faults out.new) }
    ensures sink_still { result.printed ≡ true → O.faults out.new ≡ O.faults out.old }
{
    let Run {
        outcome,
        counts,
        moves,
    } = run_words(rt, alloc, words, source, target, pats);
    let mut answer = Answer {
        outcome,
        counts,
        moves,
        printed: false,
    };
    answer.printed = print(&answer, out);
    answer
}
