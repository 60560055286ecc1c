//! Options, as they are set.
#![tactic(auto)]

ghost use Rattle.std.specs.Prelude.{◌≡◌, ◌≤◌, take, IfOk, IsTrue};
ghost use Rattle.std.specs.Option.{option_copied};
ghost use Rattle.dc_options.specs.Settings.{are_short};

use dc_attrs::Keep;
use dc_path::{List, Name, OutOfMemory, Path};
use std::alloc::Global;
use std::marker::Model;

/// Which report a copy replays.
#[derive(Drop)]
pub enum SyncBy {
    /// None: the source is copied as it is.
    None,
    /// The source's report from one of its snapshots to a later one (HDFS-7535, `-diff`).
    Diff { from: Name, to: Name },
    /// The target's report from its newer snapshot back to the older one (HDFS-9820, `-rdiff`).
    Rdiff { newer: Name, older: Name },
}

/// How files are spread over maps (Hadoop DistCp Guide, `-strategy`).
#[derive(Clone, Copy, Debug, PartialEq, Eq)]
pub enum Strategy {
    /// `uniformsize`: each map gets about as many bytes.
    Uniform,
    /// `dynamic`: maps take files as they come to them.
    Dynamic,
}

/// The options of a copy and its paths.
///
/// The type keeps that there are 1 to 65,535 maps, that blocks are at most 2,147,483,647, that the buffer has 1 to
/// 16,777,216 bytes, and that each name in `sync` has at most 252 bytes.
#[derive(Drop)]
pub struct Options {
    pub(crate) ignore: bool,
    pub(crate) keep: Keep,
    pub(crate) maps: u32,
    pub(crate) update: bool,
    pub(crate) overwrite: bool,
    pub(crate) append: bool,
    pub(crate) delete: bool,
    pub(crate) skip_crc: bool,
    pub(crate) atomic: bool,
    pub(crate) tmp: Option<Path>,
    pub(crate) sync: SyncBy,
    pub(crate) list: Option<Path>,
    pub(crate) filters: Option<Path>,
    pub(crate) kills: Option<Path>,
    pub(crate) strategy: Strategy,
    pub(crate) blocks: u32,
    pub(crate) buffer: u32,
    pub(crate) sources: List<Path>,
    pub(crate) target: Path,
}

impl Model for Options {
    ghost use Rattle.dc_options.specs.Settings.{Settings, IsWithin};

    ghost Value = { Settings };

    ghost view = { λ o. record { ignore = o.ignore; keep = o.keep; maps = o.maps; update = o.update; overwrite = o.overwrite; append = o.append; delete = o.delete; skip_crc = o.skip_crc; atomic = o.atomic; tmp = o.tmp; sync = o.sync; list = o.list; filters = o.filters; kills = o.kills; strategy = o.strategy; blocks = o.blocks; buffer = o.buffer; sources = o.sources; target = o.target } };

    ghost invariant = { λ o. IsWithin (record { ignore = o.ignore; keep = o.keep; maps = o.maps; update = o.update; overwrite = o.overwrite; append = o.append; delete = o.delete; skip_crc = o.skip_crc; atomic = o.atomic; tmp = o.tmp; sync = o.sync; list = o.list; filters = o.filters; kills = o.kills; strategy = o.strategy; blocks = o.blocks; buffer = o.buffer; sources = o.sources; target = o.target }) };
}

impl Options {
    /// Whether the run goes on without items that clash or fail.
    pub fn ignore(&self) -> bool
        ensures { result ≡ self.now.ignore }
    {
        self.ignore
    }

    /// Which attributes are kept.
    pub fn keep(&self) -> &Keep
        ensures { result.now ≡ self.now.keep }
    {
        &self.keep
    }

    /// The number of maps.
    pub fn maps(&self) -> u32
        ensures value { result ≡ self.now.maps }
        ensures least { 1 ≤ result }
        ensures most { result ≤ 65535 }
    {
        self.maps
    }

    /// Whether only files that differ are copied.
    pub fn update(&self) -> bool
        ensures { result ≡ self.now.update }
    {
        self.update
    }

    /// Whether every listed file is copied again.
    pub fn overwrite(&self) -> bool
        ensures { result ≡ self.now.overwrite }
    {
        self.overwrite
    }

    /// Whether shorter files are extended.
    pub fn append(&self) -> bool
        ensures { result ≡ self.now.append }
    {
        self.append
    }

    /// Whether what is not listed is removed from the target.
    pub fn delete(&self) -> bool
        ensures { result ≡ self.now.delete }
    {
        self.delete
    }

    /// Whether files are compared without checksums.
    pub fn skip_crc(&self) -> bool
        ensures { result ≡ self.now.skip_crc }
    {
        self.skip_crc
    }

    /// Whether all is copied to a work path, which is then moved.
    pub fn atomic(&self) -> bool
        ensures { result ≡ self.now.atomic }
    {
        self.atomic
    }

    /// The folder of the work path.
    pub fn tmp(&self) -> Option<&Path>
        ensures { option_copied result ≡ self.now.tmp }
    {
        self.tmp.as_ref()
    }

    /// The report to replay.
    pub fn sync(&self) -> &SyncBy
        ensures value { result.now ≡ self.now.sync }
        ensures short { IsTrue (are_short self.now.sync) }
    {
        &self.sync
    }

    /// The file with the source paths.
    pub fn list(&self) -> Option<&Path>
        ensures { option_copied result ≡ self.now.list }
    {
        self.list.as_ref()
    }

    /// The file with the patterns of what is left out.
    pub fn filters(&self) -> Option<&Path>
        ensures { option_copied result ≡ self.now.filters }
    {
        self.filters.as_ref()
    }

    /// The file with a plan of workers to stop.
    pub fn kills(&self) -> Option<&Path>
        ensures { option_copied result ≡ self.now.kills }
    {
        self.kills.as_ref()
    }

    /// How files are spread over maps.
    pub fn strategy(&self) -> Strategy
        ensures { result ≡ self.now.strategy }
    {
        self.strategy
    }

    /// The number of blocks of a piece into which files are cut; 0 where they are not cut.
    pub fn blocks(&self) -> u32
        ensures value { result ≡ self.now.blocks }
        ensures most { result ≤ 2147483647 }
    {
        self.blocks
    }

    /// The size of the copy buffer, in bytes.
    pub fn buffer(&self) -> u32
        ensures value { result ≡ self.now.buffer }
        ensures least { 1 ≤ result }
        ensures most { result ≤ 16777216 }
    {
        self.buffer
    }

    /// The source paths, in the order of the words.
    pub fn sources(&self) -> &[Path]
        ensures { result.now ≡ self.now.sources }
    {
        self.sources.as_slice()
    }

    /// The target path.
    pub fn target(&self) -> &Path
        ensures { result.now ≡ self.now.target }
    {
        &self.target
    }

    /// A list of the same source paths. `OutOfMemory` is the one error.
    pub fn copy_sources(&self, alloc: Global) -> Result<List<Path>, OutOfMemory>
        ensures { IfOk result (λ paths. paths ≡ self.now.sources) }
    {
        copy_paths(alloc, self.sources.as_slice())
    }
}

// Equal paths.
fn copy_paths(alloc: Global, paths: &[Path]) -> Result<List<Path>, OutOfMemory>
    ensures { IfOk result (λ copies. copies ≡ paths.now) }
{
    let mut copies = List::new(alloc);
    for path in paths {
        let copy = path.copy(alloc)?;
        copies.add(copy)?;
    }
    Ok(copies)
}
