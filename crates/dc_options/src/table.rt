//! The options: their words, and what must follow each.
#![tactic(auto)]

ghost use Rattle.std.specs.Prelude.{◌≡◌, nat_eq, find};
ghost use Rattle.dc_path.specs.Names.{same_name};
ghost use Rattle.dc_options.specs.Table.{word_of, needs_of, flags, flag_of, count_of, is_among};

/// An option of the command line (Hadoop DistCp Guide, "Command Line Options").
#[derive(Clone, Copy, Debug, PartialEq, Eq)]
pub enum Flag {
    Ignore,
    Keep,
    Maps,
    Update,
    Overwrite,
    Append,
    Delete,
    SkipCrc,
    Atomic,
    Tmp,
    Diff,
    Rdiff,
    Files,
    Filters,
    Strategy,
    Blocks,
    Buffer,
    Kills,
}

/// What must follow the word of an option.
#[derive(Clone, Copy, Debug)]
pub enum Needs {
    /// Nothing.
    Nothing,
    /// Letters of `Keep`, or none, in the same word.
    Letters,
    /// A number within these bounds, both included.
    Number { least: u32, most: u32 },
    /// A path.
    Path,
    /// The word of a strategy.
    Strategy,
    /// The names of two snapshots.
    Snapshots,
}

// Every option.
const FLAGS: [Flag; 18] = [
    Flag::Ignore,
    Flag::Keep,
    Flag::Maps,
    Flag::Update,
    Flag::Overwrite,
    Flag::Append,
    Flag::Delete,
    Flag::SkipCrc,
    Flag::Atomic,
    Flag::Tmp,
    Flag::Diff,
    Flag::Rdiff,
    Flag::Files,
    Flag::Filters,
    Flag::Strategy,
    Flag::Blocks,
    Flag::Buffer,
    Flag::Kills,
];

impl Flag {
    /// The option that a word is: one that begins with `-p` is `-p`, each other has one word.
    #[tactic(auto, unfolding(crate::specs::Table::flag_of))]
    pub fn read(word: &str) -> Option<Flag>
        ensures { result ≡ flag_of word.now }
    {
        if word.as_bytes().starts_with(b"-p") {
            return Some(Flag::Keep);
        }
        find(word)
    }

    /// The option's word.
    #[tactic(auto, unfolding(crate::specs::Table::word_of))]
    pub fn word(self) -> &'static str
        ensures { result.now ≡ word_of self }
    {
        match self {
            Flag::Ignore => "-i",
            Flag::Keep => "-p",
            Flag::Maps => "-m",
            Flag::Update => "-update",
            Flag::Overwrite => "-overwrite",
            Flag::Append => "-append",
            Flag::Delete => "-delete",
            Flag::SkipCrc => "-skipcrccheck",
            Flag::Atomic => "-atomic",
            Flag::Tmp => "-tmp",
            Flag::Diff => "-diff",
            Flag::Rdiff => "-rdiff",
            Flag::Files => "-f",
            Flag::Filters => "-filters",
            Flag::Strategy => "-strategy",
            Flag::Blocks => "-blocksperchunk",
            Flag::Buffer => "-copybuffersize",
            Flag::Kills => "-kills",
        }
    }

    /// What must follow the option's word.
    #[tactic(auto, unfolding(crate::specs::Table::needs_of))]
    pub fn needs(self) -> Needs
        ensures { result ≡ needs_of self }
    {
        match self {
            Flag::Ignore => Needs::Nothing,
            Flag::Keep => Needs::Letters,
            Flag::Maps => Needs::Number {
                least: 1,
                most: 65_535,
            },
            Flag::Update => Needs::Nothing,
            Flag::Overwrite => Needs::Nothing,
            Flag::Append => Needs::Nothing,
            Flag::Delete => Needs::Nothing,
            Flag::SkipCrc => Needs::Nothing,
            Flag::Atomic => Needs::Nothing,
            Flag::Tmp => Needs::Path,
            Flag::Diff => Needs::Snapshots,
            Flag::Rdiff => Needs::Snapshots,
            Flag::Files => Needs::Path,
            Flag::Filters => Needs::Path,
            Flag::Strategy => Needs::Strategy,
            Flag::Blocks => Needs::Number {
                least: 0,
                most: 2_147_483_647,
            },
            Flag::Buffer => Needs::Number {
                least: 1,
                most: 16_777_216,
            },
            Flag::Kills => Needs::Path,
        }
    }
}

// The option with this word.
#[tactic(auto, unfolding(crate::specs::Table::flags))]
fn find(word: &str) -> Option<Flag>
    ensures { result ≡ find (λ f. same_name (word_of f) word.now) flags }
{
    FLAGS.iter().copied().find(|flag| flag.word() == word)
}

impl Needs {
    /// How many words follow as values.
    pub fn count(self) -> usize
        ensures { result ≡ count_of self }
    {
        match self {
            Needs::Nothing | Needs::Letters => 0,
            Needs::Number { least: _, most: _ } | Needs::Path | Needs::Strategy => 1,
            Needs::Snapshots => 2,
        }
    }
}

/// Whether an option is among others.
pub fn is_among(flag: Flag, flags: &[Flag]) -> bool
    ensures { result ≡ is_among flag flags.now }
{
    flags.contains(&flag)
}
