//! The target groups of a file.
ghost use Rattle.std.specs.Prelude.{◌≡◌, IfOk, map};
ghost use Rattle.file_configs.specs.Listing.{Gives, path_label, with_path, file_said};

use crate::fault::FilesFault;
use crate::file_text::FileText;
use label_sets::{LabelError, Labels};
use lists::{List, Plain};
use sd_documents::{Group, SdError, read_groups};
use std::alloc::{AllocError, Global};

/// The label that has the path of the file, in the place of what the file itself says there.
const PATH: &str = "__meta_filepath";

/// The groups of a file, each with the path of the file as a label: what Prometheus makes of such a file.
pub(crate) fn groups_in(alloc: Global, file: &FileText) -> Result<List<Group>, FilesFault>
    ensures { Gives (λ g. g) result (file_said file.now) }
{
    match read_groups(alloc, file.body.as_slice()) {
        Ok(groups) => {
            let groups = with_paths(alloc, file.path.as_str(), groups.as_slice())?;
            Ok(groups)
        }
        Err(SdError::Memory) => Err(FilesFault::Memory),
        Err(fault) => Err(FilesFault::Document(file.path.copy()?, fault)),
    }
}

fn with_paths(alloc: Global, path: &str, groups: &[Group]) -> Result<List<Group>, AllocError>
    ensures { IfOk result (λ l. l ≡ map (with_path path.now) groups.now) }
{
    let mut all = List::new(alloc);
    for group in groups {
        all.push(group_with(path, group)?)?;
    }
    Ok(all)
}

fn group_with(path: &str, group: &Group) -> Result<Group, AllocError>
    ensures { IfOk result (λ g. g ≡ with_path path.now group.now) }
{
    let labels = labels_with(path, &group.labels)?;
    let targets = group.targets.copy()?;
    Ok(Group { targets, labels })
}

fn labels_with(path: &str, labels: &Labels) -> Result<Labels, AllocError>
    ensures { IfOk result (λ l. l ≡ path_label path.now labels.now) }
{
    let mut others = labels.copy()?;
    match others.set(PATH, path) {
        Ok(()) => Ok(others),
        Err(LabelError::Memory | LabelError::BadLabelName) => Err(AllocError),
    }
}
