//! What the files of a source list.
ghost use Rattle.std.specs.Prelude.{◌≡◌, ◌++◌, OnOk};
ghost use Rattle.file_configs.specs.Listing.{Gives, with_file, groups_said, few_said, files_said};

use crate::fault::FilesFault;
use crate::file_text::FileText;
use crate::groups::groups_in;
use lists::{List, Plain};
use sd_documents::{Group, has_few_targets};
use std::alloc::{AllocError, Global};

/// The groups of all files in order, each with the path of its file as a label, or why the first file that has none is refused.
pub fn groups_of_files(alloc: Global, files: &[FileText]) -> Result<List<Group>, FilesFault>
    ensures { Gives (λ g. g) result (files_said files.now) }
{
    let groups = all_groups(alloc, files)?;
    few(groups)
}

/// The groups, if they have not too many targets together.
fn few(groups: List<Group>) -> Result<List<Group>, FilesFault>
    ensures { Gives (λ g. g) result (few_said groups) }
{
    if !has_few_targets(groups.as_slice()) {
        return Err(FilesFault::TooMany);
    }
    Ok(groups)
}

/// The groups of all files in order.
fn all_groups(alloc: Global, files: &[FileText]) -> Result<List<Group>, FilesFault>
    ensures { Gives (λ g. g) result (groups_said files.now) }
{
    let mut all = List::new(alloc);
    for file in files {
        add_groups(alloc, &mut all, file)?;
    }
    Ok(all)
}

/// Adds the groups of one more file.
fn add_groups(alloc: Global, all: &mut List<Group>, file: &FileText) -> Result<(), FilesFault>
    ensures { Gives (λ _. all.new) result (with_file all.old file.now) }
{
    let groups = groups_in(alloc, file)?;
    append(all, groups.as_slice())?;
    Ok(())
}

fn append(all: &mut List<Group>, groups: &[Group]) -> Result<(), AllocError>
    ensures { OnOk result (all.new ≡ all.old ++ groups.now) }
{
    for group in groups {
        all.push(group.copy()?)?;
    }
    Ok(())
}
