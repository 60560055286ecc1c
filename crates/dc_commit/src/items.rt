//! Which items of a plan a phase is about.
#![tactic(auto)]

ghost use Rattle.std.specs.Prelude.{◌≡◌};
ghost use Rattle.dc_commit.specs.Settings.{is_dir_item, is_file_item};

use dc_decide::Planned;

// Whether it is a directory that the copy goes on with.
pub(crate) fn is_dir_item(planned: &Planned) -> bool
    ensures { result ≡ is_dir_item planned.now }
{
    !planned.is_out() && planned.item().is_dir()
}

// Whether it is a file that the copy goes on with.
pub(crate) fn is_file_item(planned: &Planned) -> bool
    ensures { result ≡ is_file_item planned.now }
{
    !planned.is_out() && !planned.item().is_dir()
}
