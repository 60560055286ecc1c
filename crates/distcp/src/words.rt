//! What the words of the command line ask for.
#![tactic(auto)]

ghost use Rattle.std.specs.Prelude.{◌≡◌, map, string_bytes};
ghost use Rattle.distcp.specs.Jobs.{drill_of, job_of};

use dc_path::read_number;

/// What the program is asked to do.
#[derive(Clone, Copy, Debug, PartialEq, Eq)]
pub enum Job {
    /// Print how it is used.
    Help,
    /// Print its version.
    Version,
    /// Run a drill.
    Drill { seed: u64, count: u32 },
    /// A drill whose words are not two numbers.
    BadDrill,
    /// A copy between two folders.
    Folders,
    /// Fewer words than two folders.
    TooFew,
}

// What the words after `drill` ask for.
fn read_drill(words: &[String]) -> Job
    ensures { result ≡ drill_of (map string_bytes words.now) }
{
    let [seed, count] = words else {
        return Job::BadDrill;
    };
    let seed = read_number(seed.as_str().as_bytes(), 0, u64::MAX);
    let count = read_number(count.as_str().as_bytes(), 0, u64::from(u32::MAX));
    match (seed, count) {
        (Some(seed), Some(count)) => Job::Drill {
            seed,
            count: count as u32,
        },
        _ => Job::BadDrill,
    }
}

/// What words ask for.
pub fn read_job(words: &[String]) -> Job
    ensures { result ≡ job_of (map string_bytes words.now) }
{
    match words {
        [first, rest @ ..] if first.as_str() == "drill" => read_drill(rest),
        [word] if word.as_str() == "--help" => Job::Help,
        [word] if word.as_str() == "--version" => Job::Version,
        [_, _, ..] => Job::Folders,
        _ => Job::TooFew,
    }
}
