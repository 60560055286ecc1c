//! Attributes of what is new and their copies, and sets of letters and what they keep.
#![tactic(auto)]

use crate::fixtures::{are_same, laid_over};
use dc_attrs::{Attrs, Keep, KeepError, same_kept};
use dc_path::OutOfMemory;
use std::alloc::{AllocError, Global};
use std::test::Fail;

// Whether attributes fit a file, and a directory.
fn fits(attrs: Attrs) -> (bool, bool) {
    (attrs.fits_file(), attrs.fits_dir())
}

#[test]
fn default_attributes_fit_their_own_kind_alone(rt: HostRuntime) -> Result<(), Fail> {
    assert_eq!(rt; fits(Attrs::default_file(rt.alloc())), (true, false));
    assert_eq!(rt; fits(Attrs::default_dir(rt.alloc())), (false, true));
    Ok(())
}

// Whether a copy of attributes is the same as others.
fn copy_is_same(alloc: Global, attrs: &Attrs, other: &Attrs) -> Result<bool, OutOfMemory> {
    let copy = attrs.copy(alloc)?;
    Ok(are_same(&copy, other))
}

// Whether a copy of a new file's attributes is the same as these.
fn file_is_copied_as(alloc: Global, other: Attrs) -> Result<bool, OutOfMemory> {
    let file = Attrs::default_file(alloc);
    copy_is_same(alloc, &file, &other)
}

#[test]
fn a_copy_of_attributes_is_the_same(rt: HostRuntime) -> Result<(), Fail> {
    let alloc = rt.alloc();
    assert_eq!(rt;
        file_is_copied_as(alloc, Attrs::default_file(alloc)),
        Ok(true)
    );
    assert_eq!(rt;
        file_is_copied_as(alloc, Attrs::default_dir(alloc)),
        Ok(false)
    );
    Ok(())
}

// The letters of a set.
fn letters(alloc: Global, keep: &Keep) -> Result<String, AllocError> {
    let mut text = String::new(alloc);
    for letter in ['r', 'b', 'u', 'g', 'p', 'a', 'x', 't', 'q'] {
        if keep.has(letter) {
            text.push(letter)?;
        }
    }
    Ok(text)
}

#[test]
fn letters_name_a_set(rt: HostRuntime) -> Result<(), Fail> {
    assert_eq!(rt; letters(rt.alloc(), &Keep::none())?.as_str(), "");
    assert_eq!(rt; letters(rt.alloc(), &Keep::usual())?.as_str(), "rbugpt");
    let Ok(keep) = Keep::read("xaa") else {
        return Err("three letters of the eight".into());
    };
    assert_eq!(rt; letters(rt.alloc(), &keep)?.as_str(), "pax");
    assert_eq!(rt;
        Keep::read("rbqz").err(),
        Some(KeepError::UnknownLetter { place: 2 })
    );
    Ok(())
}

// Whether a default file's replication alone is laid over a default directory.
fn replication_is_laid_over(alloc: Global) -> Result<bool, OutOfMemory> {
    let Ok(keep) = Keep::read("r") else {
        return Ok(false);
    };
    let laid = laid_over(alloc, &keep)?;
    Ok(laid.replication() == 3 && laid.block_size() == 0 && laid.mode() == 0o755)
}

#[test]
fn kept_values_are_laid_over_others(rt: HostRuntime) -> Result<(), Fail> {
    assert_eq!(rt; replication_is_laid_over(rt.alloc()), Ok(true));
    Ok(())
}

// Whether a default file and a default directory are the same at these letters.
fn are_same_at(alloc: Global, letters: &str) -> Option<bool> {
    let keep = Keep::read(letters).ok()?;
    let file = Attrs::default_file(alloc);
    let dir = Attrs::default_dir(alloc);
    Some(same_kept(&keep, &file, &dir))
}

#[test]
fn kept_values_are_compared(rt: HostRuntime) -> Result<(), Fail> {
    for (letters, same) in [("ugxt", true), ("r", false), ("tp", false), ("ub", false)] {
        assert_eq!(rt; are_same_at(rt.alloc(), letters), Some(same));
    }
    Ok(())
}
